use message_types::{Commit, Mark, Plan, Prepare, Rows, Signed};

/// What a known word tells the global order.
#[derive(Drop)]
pub enum OrderFact {
    Prepare(Signed<Prepare>),
    Commit(Signed<Commit>),
    Mark(Signed<Mark>),
    /// Rows that a certificate or a given order holds.
    Rows(Rows),
    /// A preprepare's rows.
    Proposal { v: u64, s: u64, rows: Rows },
    /// The plan of a new view.
    Plan { v: u64, plan: Plan },
}
