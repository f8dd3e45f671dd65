//! The shapes that pictures are made of. Lengths are in pixels.
ghost use Rattle.std.specs.Prelude.{◌≡◌, ◌++◌, OnOk, string_bytes};
ghost use Rattle.svg_shapes.specs.Shapes.{box_text, closing_text, dashes_text, dot_text, head_text, line_text, number_text, ring_text, size_text, view_text};

use plain_lists::Want;

/// Appends what a document begins with.
#[tactic(auto, unfolding(crate::specs::Shapes::head_text))]
pub fn put_head(text: &mut String, width: u64, height: u64) -> Result<(), Want>
    ensures { OnOk result (string_bytes text.new ≡ string_bytes text.old ++ head_text width height) }
{
    put_size(text, width, height)?;
    text.push_str("font-family=\"sans-serif\" font-size=\"12\">\n")?;
    put_box(text, 0, 0, width, height, "#ffffff")
}

#[tactic(auto, unfolding(crate::specs::Shapes::size_text))]
fn put_size(text: &mut String, width: u64, height: u64) -> Result<(), Want>
    ensures { OnOk result (string_bytes text.new ≡ string_bytes text.old ++ size_text width height) }
{
    write!(
        text,
        "<svg xmlns=\"http://www.w3.org/2000/svg\" width=\"{width}\" height=\"{height}\" viewBox=\"0 0 {width} {height}\" "
    )?;
    Ok(())
}

/// Appends what a document ends with.
pub fn put_closing(text: &mut String) -> Result<(), Want>
    ensures { OnOk result (string_bytes text.new ≡ string_bytes text.old ++ closing_text) }
{
    text.push_str("</svg>\n")?;
    Ok(())
}

/// Appends a filled box.
#[tactic(auto, unfolding(crate::specs::Shapes::box_text))]
pub fn put_box(
    text: &mut String,
    x: u64,
    y: u64,
    width: u64,
    height: u64,
    colour: &str,
) -> Result<(), Want>
    ensures { OnOk result (string_bytes text.new ≡ string_bytes text.old ++ box_text x y width height colour.now) }
{
    write!(
        text,
        "<rect x=\"{x}\" y=\"{y}\" width=\"{width}\" height=\"{height}\" fill=\"{colour}\"/>\n"
    )?;
    Ok(())
}

/// Appends a line from one place to another.
#[tactic(auto, unfolding(crate::specs::Shapes::line_text))]
pub fn put_line(
    text: &mut String,
    from: (u64, u64),
    to: (u64, u64),
    colour: &str,
) -> Result<(), Want>
    ensures { OnOk result (string_bytes text.new ≡ string_bytes text.old ++ line_text from to colour.now) }
{
    let (x1, y1) = from;
    let (x2, y2) = to;
    write!(
        text,
        "<line x1=\"{x1}\" y1=\"{y1}\" x2=\"{x2}\" y2=\"{y2}\" stroke=\"{colour}\"/>\n"
    )?;
    Ok(())
}

/// Appends a broken line from one place to another.
#[tactic(auto, unfolding(crate::specs::Shapes::dashes_text))]
pub fn put_dashes(
    text: &mut String,
    from: (u64, u64),
    to: (u64, u64),
    colour: &str,
) -> Result<(), Want>
    ensures { OnOk result (string_bytes text.new ≡ string_bytes text.old ++ dashes_text from to colour.now) }
{
    let (x1, y1) = from;
    let (x2, y2) = to;
    write!(
        text,
        "<line x1=\"{x1}\" y1=\"{y1}\" x2=\"{x2}\" y2=\"{y2}\" stroke-dasharray=\"6 4\" stroke=\"{colour}\"/>\n"
    )?;
    Ok(())
}

/// Appends a filled dot.
#[tactic(auto, unfolding(crate::specs::Shapes::dot_text))]
pub fn put_dot(text: &mut String, x: u64, y: u64, radius: u64, colour: &str) -> Result<(), Want>
    ensures { OnOk result (string_bytes text.new ≡ string_bytes text.old ++ dot_text x y radius colour.now) }
{
    write!(
        text,
        "<circle cx=\"{x}\" cy=\"{y}\" r=\"{radius}\" fill=\"{colour}\"/>\n"
    )?;
    Ok(())
}

/// Appends an empty ring.
#[tactic(auto, unfolding(crate::specs::Shapes::ring_text))]
pub fn put_ring(text: &mut String, x: u64, y: u64, radius: u64, colour: &str) -> Result<(), Want>
    ensures { OnOk result (string_bytes text.new ≡ string_bytes text.old ++ ring_text x y radius colour.now) }
{
    write!(
        text,
        "<circle cx=\"{x}\" cy=\"{y}\" r=\"{radius}\" fill=\"#ffffff\" stroke=\"{colour}\" stroke-width=\"2\"/>\n"
    )?;
    Ok(())
}

/// Appends a number.
#[tactic(auto, unfolding(crate::specs::Shapes::number_text))]
pub fn put_number(text: &mut String, x: u64, y: u64, colour: &str, number: u64) -> Result<(), Want>
    ensures { OnOk result (string_bytes text.new ≡ string_bytes text.old ++ number_text x y colour.now number) }
{
    write!(
        text,
        "<text x=\"{x}\" y=\"{y}\" fill=\"{colour}\">{number}</text>\n"
    )?;
    Ok(())
}

/// Appends a view's number.
#[tactic(auto, unfolding(crate::specs::Shapes::view_text))]
pub fn put_view(text: &mut String, x: u64, y: u64, view: u64) -> Result<(), Want>
    ensures { OnOk result (string_bytes text.new ≡ string_bytes text.old ++ view_text x y view) }
{
    write!(
        text,
        "<text x=\"{x}\" y=\"{y}\" fill=\"#707070\">view {view}</text>\n"
    )?;
    Ok(())
}
