ghost use Rattle.std.specs.Prelude.{◌≡◌};
ghost use Rattle.scenario_file.specs.Reading.{contents};
ghost use Rattle.scenario_file.specs.Valid.{IsScenario};
ghost use Rattle.script_grammar.specs.Lines.{Reads};
ghost use Rattle.script_grammar.specs.Names.{who_of};
ghost use Rattle.script_lines.specs.Scripts.{script_in, script_line_in};

use crate::step::{Step, read_step};
use plain_lists::{Copied, Items, Want};
use scenario_file::Scenario;
use script_grammar::{Company, Grammar, LineRefusal, ScriptRefusal, read_lines};
use std::alloc::Global;
use std::marker::Model;

/// The most lines that a script may have.
const MOST_LINES: u64 = 10_000;

/// A line of a script that does something, with its number in the file, from 1.
#[derive(Clone, Copy, Debug, PartialEq, Eq)]
pub struct Line {
    pub number: u64,
    pub step: Step,
}

/// What is to happen in a play, line by line. Contracts see the list of the lines.
pub struct Script {
    lines: Items<Line>,
}

// Taken apart here once, so that no crate above proves it again.
impl Drop for Script {
    fn drop(self) {
        let Script { lines: _ } = self;
    }
}

impl Model for Script {
    ghost use Rattle.std.specs.Prelude.{List};
    ghost use Rattle.script_lines.specs.declared.script.Line.{Line};

    ghost Value = { List Line };

    ghost view = { λ script. script.lines };
}

/// The lines of scripts.
#[derive(Drop)]
struct ScriptLines<'a> {
    company: Company<'a>,
}

impl Grammar<Line> for ScriptLines<'_> {
    ghost use Rattle.script_lines.specs.Scripts.{script_line_in};

    ghost says = { λ lines number words. script_line_in lines.company number words };

    #[tactic(auto, unfolding(crate::specs::Scripts::script_line_in))]
    fn read(&self, number: u64, words: &[&str]) -> Result<Line, LineRefusal> {
        Ok(Line {
            number,
            step: read_step(&self.company, words)?,
        })
    }
}

impl Script {
    /// The script of a file for the plays of a scenario. The first line that has a fault is refused: `BadLine` where it isn't in
    /// the grammar of `docs/FORMATS.md`, else `NoActor` where it names an actor that isn't there or hasn't its role.
    #[tactic(auto, unfolding(crate::specs::Scripts::script_in))]
    pub fn read(alloc: Global, bytes: &[u8], scenario: &Scenario) -> Result<Script, ScriptRefusal>
        requires { IsScenario (contents scenario.now) }
        ensures { Reads result (script_in (who_of (contents scenario.now)) bytes.now) }
    {
        let grammar = ScriptLines {
            company: Company::of(alloc, scenario),
        };
        match read_lines(alloc, &grammar, MOST_LINES, bytes) {
            Ok(lines) => Ok(Script { lines }),
            Err(refusal) => Err(refusal),
        }
    }

    pub fn lines(&self) -> &[Line]
        ensures { result.now ≡ self.now }
    {
        self.lines.as_slice()
    }
}

impl Copied for Script {
    fn copy(&self) -> Result<Self, Want> {
        Ok(Script {
            lines: self.lines.copy()?,
        })
    }
}
