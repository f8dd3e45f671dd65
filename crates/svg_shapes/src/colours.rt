//! Colours that several pictures have.
ghost use Rattle.std.specs.Prelude.{◌≡◌};
ghost use Rattle.svg_shapes.specs.Shapes.{shade_of};

/// The colour of what is wrong: intruded masters, and frames that nobody said.
pub const WRONG: &str = "#c00020";

/// The ground of a view. Four shades are enough to tell neighbours apart.
pub fn shade_of(view: u64) -> &'static str
    ensures { result.now ≡ shade_of view }
{
    match view % 4 {
        0 => "#e3eefa",
        1 => "#fdf0d2",
        2 => "#e2f4e2",
        _ => "#f7e3f1",
    }
}
