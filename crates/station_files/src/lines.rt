ghost use Rattle.std.specs.Prelude.{◌≡◌, ◌≤◌, ℕ, List, Option, IfOk, IfSome, IsErrOf, IsTrue, false, not};
ghost use Rattle.outside.specs.Faults.{HasRisen};
ghost use Rattle.station_files.specs.Input.{ComesOf, LineCounts};
ghost use Rattle.station_files.specs.WholeLines.{has_no_feed};

use thiserror::Error;

/// What comes next of an input of lines.
#[derive(Debug, Drop)]
pub enum Came {
    /// A line, without the line feed that ends it.
    Line(Vec<u8>),
    /// A line that has no room. It was read away.
    TooLong,
    /// The last bytes, which no line feed ends: no whole line came, so they are none. They were read away.
    Unended,
    /// The end of the input.
    End,
}

/// Why nothing was read.
#[derive(Clone, Copy, Debug, PartialEq, Eq, Error)]
pub enum LineAnswer {
    #[error("fault")]
    Failed,
    #[error("want of memory")]
    Want,
}

/// An input of lines.
pub trait Lines {
    // How many faults came so far.
    ghost faults: { Self → ℕ };

    // What was read ahead of the lines given.
    ghost ahead: { Self → List ℕ };

    // The bytes that are still to come, where this is told, what was read ahead among them.
    ghost waiting: { Self → Option (List ℕ) };

    /// What comes next, a line of at most `room` bytes. It takes no more memory than that, however long a line is. After a
    /// refusal the input stands anywhere.
    fn next_line(&mut self, room: u64) -> Result<Came, LineAnswer>
        ensures never_falls { faults self.old ≤ faults self.new }
        ensures failed { IsErrOf result LineAnswer.Failed → HasRisen (faults self.old) (faults self.new) }
        ensures counted { LineCounts result (faults self.old) (faults self.new) }
        ensures came { IfOk result (λ came. ComesOf room (waiting self.old) came (waiting self.new)) };

    /// Whether a line is at hand, so that `next_line` gives it without waiting for more input: just where its line feed is among
    /// what was read ahead.
    fn is_line_ahead(&self) -> bool
        ensures exact { result ≡ not (has_no_feed (ahead self.now)) }
        ensures waits { IsTrue result → IfSome (waiting self.now) (λ bytes. has_no_feed bytes ≡ false) };
}
