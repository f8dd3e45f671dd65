ghost use Rattle.std.specs.Prelude.{◌≡◌, ◌++◌, ◌∷◌, [], if◌then◌else◌, ℕ, nat_eq, IfOk, OnOk};
ghost use Rattle.std.specs.List.{list_any};
ghost use Rattle.scenario_file.specs.Reading.{contents};
ghost use Rattle.scenario_file.specs.Valid.{IsScenario};
ghost use Rattle.script_grammar.specs.Faults.{Answers};
ghost use Rattle.script_grammar.specs.Lines.{texts, Reads};
ghost use Rattle.script_grammar.specs.Names.{who_of};
ghost use Rattle.script_lines.specs.Sayings.{among, addressees_in, saying_in, words_in};

use crate::word::word;
use plain_lists::{Copied, Items, Vector, Want};
use play_words::Word;
use scenario_file::Scenario;
use script_grammar::{
    Company, Grammar, LineRefusal, Part, ScriptRefusal, both, each, parts, read_lines,
};
use std::alloc::Global;
use std::marker::Model;

/// The most lines that a file of words may have.
const MOST_LINES: u64 = 1_000;

/// What an intruded master is made to say, and to whom: the addressees' numbers rise.
#[derive(Drop)]
pub struct Saying {
    pub speaker: u32,
    pub to: Vector,
    pub word: Word,
}

impl Copied for Saying {
    fn copy(&self) -> Result<Self, Want> {
        Ok(Saying {
            speaker: self.speaker,
            to: self.to.copy()?,
            word: self.word.copy()?,
        })
    }
}

/// What the intruded masters of a play are made to say, in order. Contracts see the list of it.
pub struct Words {
    sayings: Items<Saying>,
}

// Taken apart here once, so that no crate above proves it again.
impl Drop for Words {
    fn drop(self) {
        let Words { sayings: _ } = self;
    }
}

impl Model for Words {
    ghost use Rattle.std.specs.Prelude.{List};
    ghost use Rattle.script_lines.specs.declared.saying.Saying.{Saying};

    ghost Value = { List Saying };

    ghost view = { λ words. words.sayings };
}

/// Actors by their names.
#[derive(Drop)]
struct Actors<'a> {
    company: &'a Company<'a>,
}

impl Part<u32> for Actors<'_> {
    ghost use Rattle.script_grammar.specs.Names.{actor_in};

    ghost reads = { λ part name. actor_in part.company.now.cast name };

    fn read(&self, text: &str) -> Result<u32, LineRefusal> {
        self.company.actor(text)
    }
}

fn is_named(named: &[u32], actor: u32) -> bool
    ensures { result ≡ list_any (λ m. nat_eq m actor) named.now }
{
    named.iter().any(|other| *other == actor)
}

fn push_if(actors: &mut Vector, actor: u32, is_there: bool) -> Result<(), Want>
    ensures { OnOk result (actors.new ≡ actors.old ++ (if is_there then actor ∷ [] else [])) }
{
    if is_there {
        actors.push(u64::from(actor))?;
    }
    Ok(())
}

/// The actors named, each once and in number order.
fn among(company: &Company<'_>, named: &[u32]) -> Result<Vector, Want>
    ensures { IfOk result (λ actors. actors ≡ among company.now.cast named.now) }
{
    let mut actors = Items::new(company.alloc());
    for actor in 0..company.cast().actors() {
        push_if(&mut actors, actor, is_named(named, actor))?;
    }
    Ok(actors)
}

/// Actors with commas between them.
#[tactic(auto, unfolding(crate::specs::Sayings::addressees_in))]
fn addressees(company: &Company<'_>, text: &str) -> Result<Vector, LineRefusal>
    ensures { Answers result (addressees_in company.now.cast text.now) }
{
    let names = parts(company.alloc(), text, ',')?;
    let named = each(company.alloc(), &Actors { company }, names.as_slice())?;
    Ok(among(company, named.as_slice())?)
}

/// A master, whom it speaks to, and the word.
#[tactic(auto, unfolding(crate::specs::Sayings::saying_in))]
fn read_saying(company: &Company<'_>, words: &[&str]) -> Result<Saying, LineRefusal>
    ensures { Answers result (saying_in company.now (texts words.now)) }
{
    match words {
        [name, to, fields @ ..] => {
            let to_and_word = both(addressees(company, to), word(company, fields));
            let (speaker, (to, word)) = both(company.intruded(name), to_and_word)?;
            Ok(Saying { speaker, to, word })
        }
        _ => Err(LineRefusal::BadLine),
    }
}

/// The lines of files of words.
#[derive(Drop)]
struct WordLines<'a> {
    company: Company<'a>,
}

impl Grammar<Saying> for WordLines<'_> {
    ghost use Rattle.script_lines.specs.Sayings.{saying_in};

    ghost says = { λ lines number words. saying_in lines.company words };

    fn read(&self, _number: u64, words: &[&str]) -> Result<Saying, LineRefusal> {
        read_saying(&self.company, words)
    }
}

impl Words {
    /// The words of a file for the plays of a scenario. The first line that has a fault is refused: `BadLine` where it isn't in
    /// the grammar of `docs/FORMATS.md`, else `NoActor` where it names an actor that isn't there or a speaker that isn't intruded.
    #[tactic(auto, unfolding(crate::specs::Sayings::words_in))]
    pub fn read(alloc: Global, bytes: &[u8], scenario: &Scenario) -> Result<Words, ScriptRefusal>
        requires { IsScenario (contents scenario.now) }
        ensures { Reads result (words_in (who_of (contents scenario.now)) bytes.now) }
    {
        let grammar = WordLines {
            company: Company::of(alloc, scenario),
        };
        match read_lines(alloc, &grammar, MOST_LINES, bytes) {
            Ok(sayings) => Ok(Words { sayings }),
            Err(refusal) => Err(refusal),
        }
    }

    pub fn sayings(&self) -> &[Saying]
        ensures { result.now ≡ self.now }
    {
        self.sayings.as_slice()
    }
}

impl Copied for Words {
    fn copy(&self) -> Result<Self, Want> {
        Ok(Words {
            sayings: self.sayings.copy()?,
        })
    }
}
