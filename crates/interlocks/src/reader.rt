ghost use Rattle.std.specs.Prelude.{◌≡◌, ◌≤◌, ◌+◌, length, Some, option_map, IfOk};
ghost use Rattle.interlocks.specs.Answers.{Gives, AnswersTree};
ghost use Rattle.interlocks.specs.Formula.{formula, alarm, compare};
ghost use Rattle.interlocks.specs.Reading.{Names, one_if, above, chain_levels, grown_levels, comparison, number, all_tree, any_tree, any_part, begin, opened, noticed, with_name, with_leaf, operand, alarm_name, after_and, after_or, after_part, closed, step, ended, start, unknown_after};
ghost use Rattle.interlocks.specs.Tokens.{Piece};
ghost use Rattle.point_table.specs.Table.{Table};
ghost use Rattle.alarm_rules.specs.Board.{Board};

use crate::refusal::{RuleRefusal, TokenRefusal};
use crate::token::{Token, token_of};
use crate::tree::{Comparison, Tree, and, group, not, or};
use alarm_rules::Alarms;
use plain_lists::Want;
use point_table::Points;
use std::alloc::Global;
use std::marker::Model;
use std::mem;

/// The most nodes that a rule may have.
const MOST_NODES: u32 = 64;

/// The most levels that a rule may have.
const MOST_LEVELS: u32 = 16;

/// The most bytes that a rule's text may have.
pub const MOST_BYTES: usize = 256;

/// A part of a rule that is read, and how many levels it has.
#[derive(Drop)]
pub struct Part {
    tree: Tree,
    levels: u16,
}

impl Model for Part {
    ghost use Rattle.interlocks.specs.Formula.{formula};
    ghost use Rattle.interlocks.specs.Part as spec;

    ghost Value = { spec.Part };

    ghost coded = { spec.part_code };

    ghost view = { λ part. record { tree = formula part.tree; levels = part.levels } };
}

impl Part {
    fn levels(&self) -> u16
        ensures { result ≡ self.now.levels }
    {
        self.levels
    }
}

/// What is read within one pair of brackets, or in the text itself.
#[derive(Drop)]
pub struct Scope {
    /// How many levels stand above.
    base: u8,
    /// The parts of `or` so far.
    any: Option<Part>,
    /// The parts of `and` so far.
    all: Option<Part>,
    /// How many times `not` stands before the present operand.
    nots: u8,
}

/// What may come next.
#[derive(Drop)]
pub enum Phase {
    Operand,
    /// The name of an alarm.
    AlarmName,
    /// How the point of that number is compared.
    Comparison(u32),
    /// With which number it is compared.
    Number(u32, Comparison),
    /// An operand is whole: the text goes on with `and`, `or` or `)`, or ends.
    Done(Part),
}

/// The brackets that are open, and what is read so far.
pub struct Desk {
    alloc: Global,
    outer: Vec<Scope, Global>,
    scope: Scope,
    nodes: u8,
    unknown: Option<u64>,
}

// Taken apart here once, since most functions below let go of one at each early return.
impl Drop for Desk {
    fn drop(self) {
        let Desk {
            alloc: _,
            outer: _,
            scope: _,
            nodes: _,
            unknown: _,
        } = self;
    }
}

impl Model for Desk {
    ghost use Rattle.std.specs.Prelude.{reverse};
    ghost use Rattle.interlocks.specs.Desk as spec;
    ghost use Rattle.interlocks.specs.contracts.reader.Scope as scope_type;
    ghost use Rattle.std.specs.Coded.{codes};

    ghost Value = { spec.Desk };

    ghost coded = { Prim.hlevel (codes, scope_type.the_row.coded) };

    ghost view = { λ desk. record { outer = reverse desk.outer.items; scope = desk.scope; nodes = desk.nodes; unknown = desk.unknown } };
}

/// A rule that is being read.
pub struct State {
    desk: Desk,
    phase: Phase,
}

impl Drop for State {
    fn drop(self) {
        let State { desk: _, phase: _ } = self;
    }
}

impl State {
    /// Nothing is read.
    pub fn start(alloc: Global) -> State
        ensures { result ≡ start }
    {
        State {
            desk: Desk {
                alloc,
                outer: Vec::new(alloc),
                scope: empty_scope(0),
                nodes: 0,
                unknown: None,
            },
            phase: Phase::Operand,
        }
    }

    fn apart(self) -> (Desk, Phase)
        ensures { result ≡ (self.desk, self.phase) }
    {
        let State { desk, phase } = self;
        (desk, phase)
    }
}

fn empty_scope(base: u8) -> Scope
    ensures { result ≡ record { base = base; any = None; all = None; nots = 0 } }
{
    Scope {
        base,
        any: None,
        all: None,
        nots: 0,
    }
}

fn one_if(is_there: bool) -> u32
    ensures { result ≡ one_if is_there }
{
    if is_there { 1 } else { 0 }
}

/// How many levels stand above the present operand, its `not`s left out.
fn above(scope: &Scope) -> u32
    ensures value { result ≡ above scope.now }
    ensures bound { result ≤ 257 }
{
    u32::from(scope.base) + one_if(scope.any.is_some()) + one_if(scope.all.is_some())
}

/// The levels of a chain that one more part ends.
fn chain_levels(parts: &Option<Part>, levels: u32) -> u32
    requires { levels ≤ 65536 }
    ensures value { result ≡ chain_levels parts.now levels }
    ensures bound { result ≤ 65537 }
    ensures first { levels ≤ 65535 → result ≤ 65536 }
{
    match parts {
        None => levels,
        Some(part) => 1 + levels.max(u32::from(part.levels())),
    }
}

/// One more node below the present operand's place.
fn begin(desk: Desk) -> Result<Desk, TokenRefusal>
    ensures { Gives result (begin desk) }
{
    let mut desk = desk;
    let levels = above(&desk.scope) + u32::from(desk.scope.nots);
    if u32::from(desk.nodes) >= MOST_NODES || levels >= MOST_LEVELS {
        return Err(TokenRefusal::Misplaced);
    }
    desk.nodes += 1;
    Ok(desk)
}

/// A `not` before the present operand.
fn noticed(desk: Desk) -> Result<State, TokenRefusal>
    ensures { Gives result (option_map noticed (begin desk)) }
{
    let mut desk = begin(desk)?;
    desk.scope.nots += 1;
    Ok(State {
        desk,
        phase: Phase::Operand,
    })
}

/// A bracket that opens.
fn opened(desk: Desk) -> Result<State, TokenRefusal>
    ensures { Gives result (option_map opened (begin desk)) }
{
    let mut desk = begin(desk)?;
    let base = above(&desk.scope) + u32::from(desk.scope.nots) + 1;
    let scope = mem::replace(&mut desk.scope, empty_scope(base as u8));
    desk.outer.push(scope).map_err(Want::from)?;
    Ok(State {
        desk,
        phase: Phase::Operand,
    })
}

/// The place of the first name that nothing has, after one more name.
fn unknown_after(unknown: Option<u64>, found: Option<u32>, place: u64) -> Option<u64>
    ensures { result ≡ unknown_after unknown found place }
{
    match (unknown, found) {
        (Some(first), _) => Some(first),
        (None, Some(_)) => None,
        (None, None) => Some(place),
    }
}

/// One more name, which is that of `found` where there is such a thing.
fn with_name(desk: Desk, found: Option<u32>, place: u64) -> Desk
    ensures { result ≡ with_name desk found place }
{
    let mut desk = desk;
    desk.unknown = unknown_after(desk.unknown, found, place);
    desk
}

/// A leaf that is whole.
fn with_leaf(desk: Desk, leaf: Tree) -> Result<State, TokenRefusal>
    ensures { Gives result (Some (with_leaf desk (formula leaf))) }
{
    let mut desk = desk;
    let nots = desk.scope.nots;
    let tree = not(desk.alloc, leaf, nots)?;
    desk.scope.nots = 0;
    Ok(State {
        desk,
        phase: Phase::Done(Part {
            tree,
            levels: u16::from(nots) + 1,
        }),
    })
}

/// What stands where an operand begins.
fn operand(
    desk: Desk,
    token: Token,
    text: &[u8],
    place: u64,
    points: &Points,
) -> Result<State, TokenRefusal>
    ensures { (alarms : Board) → Gives result (operand (record { points = points.now; alarms = alarms }) desk token (record { place = place; text = text.now })) }
{
    match token {
        Token::Not => noticed(desk),
        Token::Open => opened(desk),
        Token::Alarm => Ok(State {
            desk: begin(desk)?,
            phase: Phase::AlarmName,
        }),
        Token::Name => {
            let desk = begin(desk)?;
            let found = points.find_bytes(text);
            Ok(State {
                desk: with_name(desk, found, place),
                phase: Phase::Comparison(found.unwrap_or(0)),
            })
        }
        _ => Err(TokenRefusal::Misplaced),
    }
}

/// The name of an alarm.
fn alarm_name(
    desk: Desk,
    token: Token,
    text: &[u8],
    place: u64,
    alarms: &Alarms,
) -> Result<State, TokenRefusal>
    ensures { (points : Table) → Gives result (alarm_name (record { points = points; alarms = alarms.now }) desk token (record { place = place; text = text.now })) }
{
    match token {
        Token::Name => {
            let found = alarms.find_bytes(text);
            with_leaf(
                with_name(desk, found, place),
                Tree::Alarm(found.unwrap_or(0)),
            )
        }
        _ => Err(TokenRefusal::Misplaced),
    }
}

/// How a point is compared.
fn comparison(desk: Desk, point: u32, token: Token) -> Result<State, TokenRefusal>
    ensures { Gives result (comparison desk point token) }
{
    match token {
        Token::Compare(comparison) => Ok(State {
            desk,
            phase: Phase::Number(point, comparison),
        }),
        _ => Err(TokenRefusal::Misplaced),
    }
}

/// With which number a point is compared.
fn number(
    desk: Desk,
    point: u32,
    comparison: Comparison,
    token: Token,
) -> Result<State, TokenRefusal>
    ensures { Gives result (number desk point comparison token) }
{
    match token {
        Token::Number(number) => with_leaf(desk, Tree::Compare(point, comparison, number)),
        _ => Err(TokenRefusal::Misplaced),
    }
}

/// The parts of a chain, or one alone, as one tree.
fn joined_all(alloc: Global, parts: Option<Part>, tree: Tree) -> Result<Tree, Want>
    ensures { IfOk result (λ joined. formula joined ≡ all_tree parts (formula tree)) }
{
    match parts {
        None => Ok(tree),
        Some(
            Part {
                tree: left,
                levels: _,
            },
        ) => and(alloc, left, tree),
    }
}

/// The same of a chain of `or`.
fn joined_any(alloc: Global, parts: Option<Part>, tree: Tree) -> Result<Tree, Want>
    ensures { IfOk result (λ joined. formula joined ≡ any_tree parts (formula tree)) }
{
    match parts {
        None => Ok(tree),
        Some(
            Part {
                tree: left,
                levels: _,
            },
        ) => or(alloc, left, tree),
    }
}

/// All that is read within a pair of brackets, as one tree.
fn joined(alloc: Global, scope: Scope, tree: Tree) -> Result<Tree, Want>
    ensures { IfOk result (λ joined. formula joined ≡ any_tree scope.any (all_tree scope.all (formula tree))) }
{
    let Scope {
        base: _,
        any,
        all,
        nots: _,
    } = scope;
    let tree = joined_all(alloc, all, tree)?;
    joined_any(alloc, any, tree)
}

/// The levels of a chain's parts after one more.
fn grown_levels(parts: &Option<Part>, levels: u16) -> u16
    ensures { result ≡ grown_levels parts.now levels }
{
    match parts {
        None => levels,
        Some(part) => levels.max(part.levels()),
    }
}

/// An `and` behind a part.
fn after_and(desk: Desk, part: Part) -> Result<State, TokenRefusal>
    ensures { Gives result (after_and desk part) }
{
    let mut desk = desk;
    let nodes = u32::from(desk.nodes) + one_if(desk.scope.all.is_none());
    if nodes > MOST_NODES {
        return Err(TokenRefusal::Misplaced);
    }
    let above = u32::from(desk.scope.base) + one_if(desk.scope.any.is_some()) + 1;
    if above + u32::from(part.levels) > MOST_LEVELS {
        return Err(TokenRefusal::Misplaced);
    }
    let Part { tree, levels } = part;
    let all = desk.scope.all.take();
    let levels = grown_levels(&all, levels);
    let tree = joined_all(desk.alloc, all, tree)?;
    desk.scope.all = Some(Part { tree, levels });
    desk.scope.nots = 0;
    desk.nodes = nodes as u8;
    Ok(State {
        desk,
        phase: Phase::Operand,
    })
}

/// An `or` behind a part.
fn after_or(desk: Desk, part: Part) -> Result<State, TokenRefusal>
    ensures { Gives result (after_or desk part) }
{
    let mut desk = desk;
    let Part { tree, levels } = part;
    let levels = chain_levels(&desk.scope.all, u32::from(levels));
    let nodes = u32::from(desk.nodes) + one_if(desk.scope.any.is_none());
    let base = desk.scope.base;
    if nodes > MOST_NODES || u32::from(base) + 1 + levels > MOST_LEVELS {
        return Err(TokenRefusal::Misplaced);
    }
    let scope = mem::replace(&mut desk.scope, empty_scope(base));
    let levels = grown_levels(&scope.any, levels as u16);
    let tree = joined(desk.alloc, scope, tree)?;
    desk.scope.any = Some(Part { tree, levels });
    desk.nodes = nodes as u8;
    Ok(State {
        desk,
        phase: Phase::Operand,
    })
}

/// A bracket that closes behind a part.
fn closed(desk: Desk, part: Part) -> Result<State, TokenRefusal>
    ensures { Gives result (closed desk desk.outer (any_part desk.scope part)) }
{
    let mut desk = desk;
    let Part { tree, levels } = part;
    let Some(around) = desk.outer.pop() else {
        return Err(TokenRefusal::Misplaced);
    };
    let inner = chain_levels(&desk.scope.all, u32::from(levels));
    let inner = chain_levels(&desk.scope.any, inner);
    let levels = u32::from(around.nots) + 1 + inner;
    if above(&around) + levels > MOST_LEVELS {
        return Err(TokenRefusal::Misplaced);
    }
    let inside = mem::replace(&mut desk.scope, around);
    let tree = joined(desk.alloc, inside, tree)?;
    let tree = group(desk.alloc, tree)?;
    let tree = not(desk.alloc, tree, desk.scope.nots)?;
    desk.scope.nots = 0;
    Ok(State {
        desk,
        phase: Phase::Done(Part {
            tree,
            levels: levels as u16,
        }),
    })
}

/// What stands behind a part.
fn after_part(desk: Desk, part: Part, token: Token) -> Result<State, TokenRefusal>
    ensures { Gives result (after_part desk part token) }
{
    match token {
        Token::And => after_and(desk, part),
        Token::Or => after_or(desk, part),
        Token::Close => closed(desk, part),
        _ => Err(TokenRefusal::Misplaced),
    }
}

/// The state after one more token.
#[tactic(auto, unfolding(crate::specs::Reading::step))]
pub fn step(
    state: State,
    text: &[u8],
    place: u64,
    points: &Points,
    alarms: &Alarms,
) -> Result<State, TokenRefusal>
    ensures { Gives result (step (record { points = points.now; alarms = alarms.now }) state (record { place = place; text = text.now })) }
{
    let (desk, phase) = state.apart();
    let token = token_of(text);
    match phase {
        Phase::Operand => operand(desk, token, text, place, points),
        Phase::AlarmName => alarm_name(desk, token, text, place, alarms),
        Phase::Comparison(point) => comparison(desk, point, token),
        Phase::Number(point, by) => number(desk, point, by, token),
        Phase::Done(part) => after_part(desk, part, token),
    }
}

/// The rule that is read, where the text of `len` bytes ends there.
#[tactic(auto, unfolding(crate::specs::Reading::ended))]
pub fn finish(state: State, len: usize) -> Result<Tree, RuleRefusal>
    ensures { AnswersTree result (ended len state) }
{
    let (desk, phase) = state.apart();
    if len > MOST_BYTES || !desk.outer.is_empty() {
        return Err(RuleRefusal::BadRule { place: len as u64 });
    }
    let Phase::Done(Part { tree, levels: _ }) = phase else {
        return Err(RuleRefusal::BadRule { place: len as u64 });
    };
    if let Some(place) = desk.unknown {
        return Err(RuleRefusal::NoName { place });
    }
    let mut desk = desk;
    let scope = mem::replace(&mut desk.scope, empty_scope(0));
    Ok(joined(desk.alloc, scope, tree)?)
}
