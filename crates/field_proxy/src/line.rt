ghost use Rattle.std.specs.Prelude.{◌≡◌, ◌≢◌, []};
ghost use Rattle.field_proxy.specs.Exchanges.{next_transaction};

use plain_lists::{Bytes, Items};
use std::alloc::Global;

/// What passed between a proxy and its device: the bytes of a request, and those of the reply.
#[derive(Drop)]
pub struct Exchange {
    pub request: Bytes,
    pub reply: Bytes,
}

/// The line to a device.
#[derive(Drop)]
pub struct Line {
    /// The transaction that was last used: they go from 1 upwards, and on from 0 after 65,535.
    pub last: u16,
    /// What passed, in turn.
    pub passed: Items<Exchange>,
}

impl Line {
    /// A line on which nothing has passed, with the transaction that was last used. It takes no memory.
    pub fn new(alloc: Global, last: u16) -> Line
        ensures { result ≡ record { last = last; passed = [] } }
    {
        Line {
            last,
            passed: Items::new(alloc),
        }
    }

    /// The next transaction.
    pub fn next(&mut self) -> u16
        ensures next { result ≡ next_transaction self.old.last }
        ensures used { self.new.last ≡ result }
        ensures passed { self.new.passed ≡ self.old.passed }
    {
        self.last = self.last.wrapping_add(1);
        self.last
    }

    /// What passed.
    pub fn into_passed(self) -> Items<Exchange>
        ensures { result ≡ self.passed }
    {
        let Line { last: _, passed } = self;
        passed
    }

    /// Goes on from a later line, where anything passed on it.
    pub fn keep(&mut self, later: Line)
        ensures some { later.passed ≢ [] → self.new ≡ later }
        ensures none { later.passed ≡ [] → self.new ≡ self.old }
    {
        if !later.passed.is_empty() {
            *self = later;
        }
    }
}
