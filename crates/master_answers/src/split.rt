ghost use Rattle.std.specs.Prelude.{◌≡◌, ◌++◌, ◌∷◌, [], IfOk, OnOk, filter, not};
ghost use Rattle.words_by_part.specs.Kinds.{is_of};
ghost use Rattle.master_answers.specs.Late.{late};

use message_types::Body;
use plain_lists::Want;
use std::alloc::Global;

/// Words due, those that a master says after all others apart.
#[derive(Drop)]
pub struct Split {
    pub early: Vec<Body>,
    pub late: Vec<Body>,
}

/// Sets asks for orders and marks apart, each list in the order of the words.
pub fn split_words(alloc: Global, bodies: Vec<Body>) -> Result<Split, Want>
    ensures early { IfOk result (λ split. split.early.items ≡ filter (λ word. not (is_of late word)) bodies.items) }
    ensures late { IfOk result (λ split. split.late.items ≡ filter (is_of late) bodies.items) }
{
    let mut early = Vec::new(alloc);
    let mut late = Vec::new(alloc);
    for body in bodies {
        put_apart(&mut early, &mut late, body)?;
    }
    Ok(Split { early, late })
}

fn put_apart(early: &mut Vec<Body>, later: &mut Vec<Body>, body: Body) -> Result<(), Want>
    ensures early { OnOk result (early.new.items ≡ early.old.items ++ filter (λ word. not (is_of late word)) (body ∷ [])) }
    ensures late { OnOk result (later.new.items ≡ later.old.items ++ filter (is_of late) (body ∷ [])) }
{
    if is_late(&body) {
        later.push(body)?;
    } else {
        early.push(body)?;
    }
    Ok(())
}

fn is_late(body: &Body) -> bool
    ensures { result ≡ is_of late body.now }
{
    matches!(body, Body::AskOrder(_) | Body::Mark(_))
}
