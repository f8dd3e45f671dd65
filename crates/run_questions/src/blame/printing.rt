//! The text that names them.
ghost use Rattle.std.specs.Prelude.{◌≡◌, ◌++◌, IfOk, OnOk, IsTrue, codes, string_bytes};
ghost use Rattle.std.specs.List.{All, flat_map};
ghost use Rattle.hex.specs.Hex.{encode_lower};
ghost use Rattle.message_types.specs.Spelling.{has_spelling};
ghost use Rattle.message_types.specs.Texts.{frame_text};
ghost use Rattle.scenario_file.specs.Reading.{contents};
ghost use Rattle.history_rules.specs.Legal.{IsLegal};
ghost use Rattle.world_rules.specs.Scenarios.{setup_of};
ghost use Rattle.run_questions.specs.BlameText.{IsSpelled, named_text, named_lines, blame_text};

use crate::blame::taking::blame_of;
use blame_check::Named;
use message_forms::write_frame;
use message_types::Frame;
use plain_lists::Want;
use run_lines::kind_of;
use scenario_file::Scenario;
use std::alloc::Global;
use world_entries::History;

/// The text of who is blamed for what was taken in a legal history. The line `blame X` has the number of those named. Then
/// there is by rising master a line `mI KIND HEX HEX`, with two frames of the master that contradict each other, as they are
/// spelled, two lowercase digits a byte.
pub fn blame_text(alloc: Global, scenario: &Scenario, history: &History) -> Result<Vec<u8>, Want>
    requires { IsLegal (setup_of (contents scenario.now)) history.now }
    ensures { IfOk result (λ text. text.items ≡ blame_text (contents scenario.now) history.now) }
{
    let blame = blame_of(alloc, scenario.sizes, history.entries())?;
    let mut text = String::new(alloc);
    put_named(alloc, &mut text, blame.named())?;
    Ok(text.into_bytes())
}

#[tactic(auto, unfolding(crate::specs::BlameText::named_lines))]
fn put_named(alloc: Global, text: &mut String, named: &[Named]) -> Result<(), Want>
    requires { All IsSpelled named.now }
    ensures { OnOk result (string_bytes text.new ≡ string_bytes text.old ++ named_lines named.now) }
{
    let count = named.len();
    write!(text, "blame {count}\n")?;
    put_pairs(alloc, text, named)
}

fn put_pairs(alloc: Global, text: &mut String, pairs: &[Named]) -> Result<(), Want>
    requires { All IsSpelled pairs.now }
    ensures { OnOk result (string_bytes text.new ≡ string_bytes text.old ++ flat_map named_text pairs.now) }
{
    for pair in pairs {
        put_pair(alloc, text, pair)?;
    }
    Ok(())
}

#[tactic(auto, unfolding(crate::specs::BlameText::named_text))]
fn put_pair(alloc: Global, text: &mut String, pair: &Named) -> Result<(), Want>
    requires { IsSpelled pair.now }
    ensures { OnOk result (string_bytes text.new ≡ string_bytes text.old ++ named_text pair.now) }
{
    let master = pair.master;
    let kind = kind_of(&pair.first.body).name();
    write!(text, "m{master} {kind} ")?;
    put_frame(alloc, text, &pair.first)?;
    text.push_str(" ")?;
    put_frame(alloc, text, &pair.second)?;
    text.push_str("\n")?;
    Ok(())
}

fn put_frame(alloc: Global, text: &mut String, frame: &Frame) -> Result<(), Want>
    requires { IsTrue (has_spelling frame.now) }
    ensures { OnOk result (string_bytes text.new ≡ string_bytes text.old ++ encode_lower (frame_text frame.now)) }
{
    let bytes = write_frame(alloc, frame)?;
    let digits = hex::encode(alloc, &bytes)?;
    text.push_str(digits.as_str())?;
    Ok(())
}
