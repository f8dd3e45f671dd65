ghost use Rattle.std.specs.Prelude.{◌≡◌, IfOk};
ghost use Rattle.interlocks.specs.Formula.{formula, both, either, bracket, negated, holds};

use alarm_rules::Alarms;
use plain_lists::Want;
use point_table::Points;
use std::alloc::Global;

/// How a rule compares a point's value with a number.
#[derive(Clone, Copy, Debug, PartialEq, Eq)]
pub enum Comparison {
    Equal,
    NotEqual,
    Below,
    AtMost,
    Above,
    AtLeast,
}

impl Comparison {
    ghost use Rattle.interlocks.specs.Comparing.{compares};

    /// Whether `left` stands so to `right`.
    pub fn holds(self, left: i64, right: i64) -> bool
        ensures { result ≡ compares self left right }
    {
        match self {
            Comparison::Equal => left == right,
            Comparison::NotEqual => left != right,
            Comparison::Below => left < right,
            Comparison::AtMost => left <= right,
            Comparison::Above => left > right,
            Comparison::AtLeast => left >= right,
        }
    }
}

/// The tree of a rule. A chain `a and b and c` leans to the left.
#[derive(Drop)]
pub enum Tree {
    Alarm(u32),
    Compare(u32, Comparison, i64),
    Not(Box<Tree>),
    Group(Box<Tree>),
    And(Box<Tree>, Box<Tree>),
    Or(Box<Tree>, Box<Tree>),
}

/// Whether a rule's tree holds.
pub fn tree_holds(tree: &Tree, points: &Points, alarms: &Alarms) -> bool
    ensures { result ≡ holds (formula tree.now) points.now alarms.now }
{
    match tree {
        Tree::Alarm(alarm) => alarms.raised(*alarm),
        Tree::Compare(point, comparison, number) => match points.value(*point) {
            Some(value) => comparison.holds(value, *number),
            None => false,
        },
        Tree::Not(part) => !tree_holds(part, points, alarms),
        Tree::Group(part) => tree_holds(part, points, alarms),
        Tree::And(left, right) => {
            tree_holds(left, points, alarms) && tree_holds(right, points, alarms)
        }
        Tree::Or(left, right) => {
            tree_holds(left, points, alarms) || tree_holds(right, points, alarms)
        }
    }
}

/// A tree of the same rule.
pub fn tree_copy(alloc: Global, tree: &Tree) -> Result<Tree, Want>
    ensures { IfOk result (λ copy. formula copy ≡ formula tree.now) }
{
    match tree {
        Tree::Alarm(alarm) => Ok(Tree::Alarm(*alarm)),
        Tree::Compare(point, comparison, number) => {
            Ok(Tree::Compare(*point, *comparison, *number))
        }
        Tree::Not(part) => not(alloc, tree_copy(alloc, part)?, 1),
        Tree::Group(part) => group(alloc, tree_copy(alloc, part)?),
        Tree::And(left, right) => {
            let left = tree_copy(alloc, left)?;
            let right = tree_copy(alloc, right)?;
            and(alloc, left, right)
        }
        Tree::Or(left, right) => {
            let left = tree_copy(alloc, left)?;
            let right = tree_copy(alloc, right)?;
            or(alloc, left, right)
        }
    }
}

/// The tree of `left and right`.
pub fn and(alloc: Global, left: Tree, right: Tree) -> Result<Tree, Want>
    ensures { IfOk result (λ tree. formula tree ≡ both (formula left) (formula right)) }
{
    let left = Box::new(alloc, left)?;
    let right = Box::new(alloc, right)?;
    Ok(Tree::And(left, right))
}

/// The tree of `left or right`.
pub fn or(alloc: Global, left: Tree, right: Tree) -> Result<Tree, Want>
    ensures { IfOk result (λ tree. formula tree ≡ either (formula left) (formula right)) }
{
    let left = Box::new(alloc, left)?;
    let right = Box::new(alloc, right)?;
    Ok(Tree::Or(left, right))
}

/// The tree of a pair of brackets.
pub fn group(alloc: Global, part: Tree) -> Result<Tree, Want>
    ensures { IfOk result (λ tree. formula tree ≡ bracket (formula part)) }
{
    Ok(Tree::Group(Box::new(alloc, part)?))
}

/// The tree behind as many `not` as `nots`.
pub fn not(alloc: Global, part: Tree, nots: u8) -> Result<Tree, Want>
    ensures { IfOk result (λ tree. formula tree ≡ negated nots (formula part)) }
{
    let mut tree = part;
    for _ in 0..nots {
        tree = Tree::Not(Box::new(alloc, tree)?);
    }
    Ok(tree)
}
