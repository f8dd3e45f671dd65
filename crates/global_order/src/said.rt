ghost use Rattle.std.specs.Prelude.{◌≡◌, ◌+◌, ◌≤◌, ◌||◌, ℕ, length};
ghost use Rattle.std.specs.List.{list_any};
ghost use Rattle.std.specs.HashSet.{contains, spare};
ghost use Rattle.protocol_rules.specs.Order.{prepares_said, commits_said};
ghost use Rattle.global_order.specs.Index.{same_pair};

use crate::letting::let_go;
use message_types::Body;
use std::collections::HashSet;

/// Views with numbers.
pub type Places = HashSet<(u64, u64)>;

/// What was said.
pub struct Said {
    pub prepares: Places,
    pub commits: Places,
    /// All marks up to this number were said.
    pub marked: u64,
}

impl Drop for Said {
    fn drop(self) {
        let Said {
            prepares,
            commits,
            marked: _,
        } = self;
        let_go(prepares);
        let_go(commits);
    }
}

/// Notes the prepares and commits among some bodies.
pub fn note_said(prepares: &mut Places, commits: &mut Places, bodies: &[Body])
    requires prepares_room { length bodies.now ≤ spare prepares.old }
    requires commits_room { length bodies.now ≤ spare commits.old }
    ensures prepares { (v s : ℕ) → contains same_pair prepares.new (v, s) ≡ (contains same_pair prepares.old (v, s) || list_any (prepares_said v s) bodies.now) }
    ensures commits { (v s : ℕ) → contains same_pair commits.new (v, s) ≡ (contains same_pair commits.old (v, s) || list_any (commits_said v s) bodies.now) }
{
    for body in bodies {
        note_body(prepares, commits, body);
    }
}

fn note_body(prepares: &mut Places, commits: &mut Places, body: &Body)
    requires prepares_room { 1 ≤ spare prepares.old }
    requires commits_room { 1 ≤ spare commits.old }
    ensures prepares { (v s : ℕ) → contains same_pair prepares.new (v, s) ≡ (contains same_pair prepares.old (v, s) || prepares_said v s body.now) }
    ensures commits { (v s : ℕ) → contains same_pair commits.new (v, s) ≡ (contains same_pair commits.old (v, s) || commits_said v s body.now) }
    ensures prepares_spare { spare prepares.old ≤ spare prepares.new + 1 }
    ensures commits_spare { spare commits.old ≤ spare commits.new + 1 }
{
    match body {
        Body::Prepare(word) => {
            let _is_new = prepares.insert((word.v, word.s)).unwrap();
        }
        Body::Commit(word) => {
            let _is_new = commits.insert((word.v, word.s)).unwrap();
        }
        _ => {}
    }
}
