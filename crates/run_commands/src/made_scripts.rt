ghost use Rattle.std.specs.Prelude.{◌≡◌, ◌++◌, IfOk, OnOk, string_bytes};
ghost use Rattle.run_commands.specs.MadeScript.{made_script, next_draw, reading_text, round_text, setting_text};

use plain_lists::Want;
use std::alloc::Global;

const ROUNDS: u64 = 30;

/// The script of the run that a number makes, as the text of a file.
#[tactic(auto, unfolding(crate::specs::MadeScript::made_script))]
pub fn made_script(alloc: Global, number: u32) -> Result<String, Want>
    ensures { IfOk result (λ text. string_bytes text ≡ made_script number) }
{
    let mut text = String::new(alloc);
    let mut last = number;
    for _round in 0..ROUNDS {
        let current = next_draw(last);
        last = next_draw(current);
        put_round(&mut text, current % 2001, last % 2)?;
    }
    Ok(text)
}

// The next number of the sequence that a run is drawn from.
#[tactic(auto, unfolding(crate::specs::MadeScript::next_draw))]
fn next_draw(last: u32) -> u32
    ensures { result ≡ next_draw last }
{
    ((1_664_525 * u64::from(last) + 1_013_904_223) % 4_294_967_296) as u32
}

#[tactic(auto, unfolding(crate::specs::MadeScript::round_text))]
fn put_round(text: &mut String, current: u32, position: u32) -> Result<(), Want>
    ensures { OnOk result (string_bytes text.new ≡ string_bytes text.old ++ round_text current position) }
{
    put_reading(text, current)?;
    put_setting(text, position)?;
    text.push_str("flow 4\ntick masters\nflow 1\ntick m0\nflow 5\n")?;
    Ok(())
}

#[tactic(auto, unfolding(crate::specs::MadeScript::reading_text))]
fn put_reading(text: &mut String, current: u32) -> Result<(), Want>
    ensures { OnOk result (string_bytes text.new ≡ string_bytes text.old ++ reading_text current) }
{
    write!(text, "field p0 input 0 {current}\npoll p0\n")?;
    Ok(())
}

#[tactic(auto, unfolding(crate::specs::MadeScript::setting_text))]
fn put_setting(text: &mut String, position: u32) -> Result<(), Want>
    ensures { OnOk result (string_bytes text.new ≡ string_bytes text.old ++ setting_text position) }
{
    write!(text, "command s0 set 1 {position}\n")?;
    Ok(())
}
