//! The files of a play or of a run, loaded and read.
ghost use Rattle.std.specs.Prelude.{◌≡◌, ℕ, List, IfOk, Ok};
ghost use Rattle.scenario_file.specs.Reading.{contents};
ghost use Rattle.scenario_file.specs.Valid.{IsScenario};
ghost use Rattle.script_grammar.specs.Names.{who_of};
ghost use Rattle.script_lines.specs.Sayings.{words_in};
ghost use Rattle.script_lines.specs.Scripts.{script_in};
ghost use Rattle.command_ends.specs.Calls.{FaultsOfFiles};
ghost use Rattle.run_commands.specs.Readers.{IsScriptOf, AreWordsOf};
ghost use Rattle.command_files.specs.Scenarios.{scenario_at};
ghost use Rattle.run_commands.specs.Reading.{with_scenario, with_script, with_words};
ghost use Rattle.run_commands.specs.Opened.{Leads, OpenCause, IsOf};

use command_ends::{LineFault, Refusal, load};
use outside::Files;
use scenario_file::Scenario;
use script_lines::{Script, ScriptRefusal, Words};
use std::alloc::Global;

/// The scenario of a file.
pub fn open_scenario<F: Files>(
    alloc: Global,
    name: &str,
    files: &mut F,
) -> Result<Scenario, Refusal>
    ensures kept { (other : List ℕ) → F.held files.new other ≡ F.held files.old other }
    ensures file_faults { FaultsOfFiles result (F.faults files.old) (F.faults files.new) }
    ensures cause { OpenCause with_scenario contents (F.held files.old name.now) (F.faults files.old name.now) (F.faults files.new name.now) name.now result }
    ensures found { IfOk result (λ scenario. IsOf (F.held files.old name.now) (λ content. scenario_at content ≡ Ok (contents scenario))) }
    ensures valid { IfOk result (λ scenario. IsScenario (contents scenario)) }
{
    match load(alloc, name, files) {
        Ok(content) => read_scenario(alloc, content.as_slice()),
        Err(refusal) => Err(refusal),
    }
}

/// The script of a file.
pub fn open_script<F: Files>(
    alloc: Global,
    scenario: &Scenario,
    name: &str,
    files: &mut F,
) -> Result<Script, Refusal>
    requires { IsScenario (contents scenario.now) }
    ensures kept { (other : List ℕ) → F.held files.new other ≡ F.held files.old other }
    ensures file_faults { FaultsOfFiles result (F.faults files.old) (F.faults files.new) }
    ensures cause { OpenCause (with_script (contents scenario.now)) (λ script. script) (F.held files.old name.now) (F.faults files.old name.now) (F.faults files.new name.now) name.now result }
    ensures found { IfOk result (λ script. IsOf (F.held files.old name.now) (λ content. script_in (who_of (contents scenario.now)) content ≡ Ok script)) }
    ensures read { IfOk result (λ script. IsScriptOf (contents scenario.now) script) }
{
    match load(alloc, name, files) {
        Ok(content) => read_script(alloc, scenario, content.as_slice()),
        Err(refusal) => Err(refusal),
    }
}

/// The words of a file.
pub fn open_words<F: Files>(
    alloc: Global,
    scenario: &Scenario,
    name: &str,
    files: &mut F,
) -> Result<Words, Refusal>
    requires { IsScenario (contents scenario.now) }
    ensures kept { (other : List ℕ) → F.held files.new other ≡ F.held files.old other }
    ensures file_faults { FaultsOfFiles result (F.faults files.old) (F.faults files.new) }
    ensures cause { OpenCause (with_words (contents scenario.now)) (λ words. words) (F.held files.old name.now) (F.faults files.old name.now) (F.faults files.new name.now) name.now result }
    ensures found { IfOk result (λ words. IsOf (F.held files.old name.now) (λ content. words_in (who_of (contents scenario.now)) content ≡ Ok words)) }
    ensures read { IfOk result (λ words. AreWordsOf (contents scenario.now) words) }
{
    match load(alloc, name, files) {
        Ok(content) => read_words(alloc, scenario, content.as_slice()),
        Err(refusal) => Err(refusal),
    }
}

/// The scenario of a content.
pub fn read_scenario(alloc: Global, content: &[u8]) -> Result<Scenario, Refusal>
    ensures leads { Leads with_scenario contents content.now result }
    ensures found { IfOk result (λ scenario. scenario_at content.now ≡ Ok (contents scenario)) }
    ensures valid { IfOk result (λ scenario. IsScenario (contents scenario)) }
{
    command_files::read_scenario(alloc, content)
}

/// The script of a content.
pub fn read_script(alloc: Global, scenario: &Scenario, content: &[u8]) -> Result<Script, Refusal>
    requires { IsScenario (contents scenario.now) }
    ensures leads { Leads (with_script (contents scenario.now)) (λ script. script) content.now result }
    ensures found { IfOk result (λ script. script_in (who_of (contents scenario.now)) content.now ≡ Ok script) }
    ensures read { IfOk result (λ script. IsScriptOf (contents scenario.now) script) }
{
    match Script::read(alloc, content, scenario) {
        Ok(script) => Ok(script),
        Err(ScriptRefusal::BadLine { line }) => Err(Refusal::Script {
            fault: LineFault::BadLine,
            line,
        }),
        Err(ScriptRefusal::NoActor { line }) => Err(Refusal::Script {
            fault: LineFault::NoActor,
            line,
        }),
        Err(ScriptRefusal::Want) => Err(Refusal::Memory),
    }
}

/// The words of a content.
pub fn read_words(alloc: Global, scenario: &Scenario, content: &[u8]) -> Result<Words, Refusal>
    requires { IsScenario (contents scenario.now) }
    ensures leads { Leads (with_words (contents scenario.now)) (λ words. words) content.now result }
    ensures found { IfOk result (λ words. words_in (who_of (contents scenario.now)) content.now ≡ Ok words) }
    ensures read { IfOk result (λ words. AreWordsOf (contents scenario.now) words) }
{
    match Words::read(alloc, content, scenario) {
        Ok(words) => Ok(words),
        Err(ScriptRefusal::BadLine { line }) => Err(Refusal::Words {
            fault: LineFault::BadLine,
            line,
        }),
        Err(ScriptRefusal::NoActor { line }) => Err(Refusal::Words {
            fault: LineFault::NoActor,
            line,
        }),
        Err(ScriptRefusal::Want) => Err(Refusal::Memory),
    }
}
