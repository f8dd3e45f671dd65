//! How far an actor came.
ghost use Rattle.std.specs.Prelude.{◌≡◌, ◌++◌, false, OnOk, string_bytes};
ghost use Rattle.run_page.specs.Details.{came, came_text, is_as_far};

use plain_lists::Want;
use world_history::Bench;

/// How many updates an actor executed, how many values it wrote and notices it showed, and its view.
#[derive(Clone, Copy)]
pub(crate) struct Came {
    pub executed: usize,
    pub written: usize,
    pub shown: usize,
    pub view: u64,
}

impl Came {
    /// How far the actor of a bench came.
    pub(crate) fn of(bench: &Bench) -> Came
        requires { bench.now.is_spent ≡ false }
        ensures { result ≡ came bench.now }
    {
        Came {
            executed: bench.executions().len(),
            written: bench.writes().len(),
            shown: bench.board().len(),
            view: bench.view(),
        }
    }

    fn is_as_far(self, other: Came) -> bool
        ensures { result ≡ is_as_far self other }
    {
        self.executed == other.executed
            && self.written == other.written
            && self.shown == other.shown
            && self.view == other.view
    }
}

/// Appends how far an actor came at an entry, where it had come less far before it.
#[tactic(auto, unfolding(crate::specs::Details::came_text))]
pub(crate) fn put_came(text: &mut String, stamp: u64, before: Came, after: Came) -> Result<(), Want>
    ensures { OnOk result (string_bytes text.new ≡ string_bytes text.old ++ came_text stamp before after) }
{
    if before.is_as_far(after) {
        return Ok(());
    }
    let (executed, written) = (after.executed, after.written);
    let (shown, view) = (after.shown, after.view);
    write!(text, "{stamp} came {executed} {written}")?;
    write!(text, " {shown} {view}\n")?;
    Ok(())
}
