ghost use Rattle.std.specs.Prelude.{◌≡◌, ◌==◌, ◌∷◌, ◌++◌, ◌<◌, [], length, position, Result, Some, IfSome, OnOk};
ghost use Rattle.std.specs.List.{cons_option};
ghost use Rattle.std.specs.Option.{MatchOption};
ghost use Rattle.std.specs.Str.Lines.{lines, strip_carriage_return};
ghost use Rattle.script_grammar.specs.Faults.{Answers, said};
ghost use Rattle.script_grammar.specs.Lines.{is_silent, line_in, file_in, Reads, texts, words_of};

use crate::fault::{LineRefusal, ScriptRefusal};
use crate::pieces::parts;
use plain_lists::{Items, Want};
use std::alloc::Global;

/// What the lines of a kind of files say.
pub trait Grammar<T: Drop> {
    ghost use Rattle.std.specs.Prelude.{ℕ, List};
    ghost use Rattle.script_grammar.specs.Faults.{Answer};

    /// What the words of the line of a number say.
    ghost says: { Self → ℕ → List (List ℕ) → Answer T };

    fn read(&self, number: u64, words: &[&str]) -> Result<T, LineRefusal>
        ensures { Answers result (says self.now number (texts words.now)) };
}

fn without_return(line: &[u8]) -> &[u8]
    ensures { result.now ≡ strip_carriage_return line.now }
{
    match line {
        [front @ .., b'\r'] => front,
        _ => line,
    }
}

fn line_feed(text: &[u8]) -> Option<usize>
    ensures place { result ≡ position (λ b. b == 10) text.now }
    ensures within { IfSome result (λ end. end < length text.now) }
{
    text.iter().position(|byte| *byte == b'\n')
}

/// The first line of a text, and the text after it. None where no line is left.
fn first_line(text: &[u8]) -> Option<(&[u8], &[u8])>
    ensures { MatchOption result (lines text.now ≡ []) (λ cut. lines text.now ≡ cut.0.now ∷ lines cut.1.now) }
{
    if text.is_empty() {
        return None;
    }
    match line_feed(text) {
        None => Some((text, &text[text.len()..])),
        Some(end) => Some((without_return(&text[..end]), &text[end + 1..])),
    }
}

fn is_silent(line: &[u8]) -> bool
    ensures { result ≡ is_silent line.now }
{
    match line {
        [] => true,
        [first, ..] => *first == b'#',
    }
}

/// What the words of a line say.
fn read_text<T: Drop, G: Grammar<T>>(
    alloc: Global,
    grammar: &G,
    number: u64,
    line: &str,
) -> Result<T, LineRefusal>
    ensures { Answers result (G.says grammar.now number (words_of line.now)) }
{
    let words = parts(alloc, line, ' ')?;
    grammar.read(number, words.as_slice())
}

fn if_any<T: Drop>(read: Result<T, LineRefusal>) -> Result<Option<T>, LineRefusal>
    ensures { (right : Result T LineRefusal) → Answers read right → Answers result (said Some right) }
{
    match read {
        Ok(value) => Ok(Some(value)),
        Err(fault) => Err(fault),
    }
}

/// What a line says, if it says anything.
#[tactic(auto, unfolding(crate::specs::Lines::line_in))]
fn read_line<T: Drop, G: Grammar<T>>(
    alloc: Global,
    grammar: &G,
    number: u64,
    line: &[u8],
) -> Result<Option<T>, LineRefusal>
    ensures { Answers result (line_in (G.says grammar.now) (record { number = number; line = line.now })) }
{
    if is_silent(line) {
        return Ok(None);
    }
    match std::str::from_utf8(line) {
        Ok(text) => if_any(read_text(alloc, grammar, number, text)),
        Err(_) => Err(LineRefusal::BadLine),
    }
}

fn push_said<T: Drop>(all: &mut Items<T>, said: Option<T>) -> Result<(), Want>
    ensures { OnOk result (all.new ≡ all.old ++ cons_option said []) }
{
    match said {
        Some(value) => all.push(value),
        None => Ok(()),
    }
}

/// What the lines of a file say, at most `most` of them; or its first line that has a fault.
#[tactic(auto, unfolding(crate::specs::Lines::file_in))]
pub fn read_lines<T: Drop, G: Grammar<T>>(
    alloc: Global,
    grammar: &G,
    most: u64,
    bytes: &[u8],
) -> Result<Items<T>, ScriptRefusal>
    requires { most < 4294967296 }
    ensures { Reads result (file_in most (G.says grammar.now) bytes.now) }
{
    let mut all = Items::new(alloc);
    let mut rest = bytes;
    for number in 1..most + 1 {
        let Some((line, after)) = first_line(rest) else {
            return Ok(all);
        };
        match read_line(alloc, grammar, number, line) {
            Ok(said) => push_said(&mut all, said)?,
            Err(fault) => return Err(fault.at(number)),
        }
        rest = after;
    }
    match first_line(rest) {
        None => Ok(all),
        Some(_) => Err(ScriptRefusal::BadLine { line: most + 1 }),
    }
}
