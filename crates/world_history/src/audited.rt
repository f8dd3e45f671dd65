//! What an audit asks of a bench.
ghost use Rattle.std.specs.Option.{option_copied};
ghost use Rattle.world_history.specs.State.{executed_if};

use crate::bench::Bench;
use crate::role::Role;
use history_audit::Executes;
use message_types::Update;

impl Executes for Bench {
    ghost executed = { executed_if };

    fn executions(&self) -> Option<&[Update]> {
        if self.is_spent {
            return None;
        }
        if let Role::Master(node) = &self.seat.role {
            Some(node.executions())
        } else {
            None
        }
    }
}
