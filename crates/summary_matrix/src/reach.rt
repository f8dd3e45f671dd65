ghost use Rattle.std.specs.Prelude.{◌≡◌, ◌<◌, ◌≤◌, ℕ, length, take, filter, max, nat_le, nat_lt, slice_index};
ghost use Rattle.std.specs.List.{list_any};
ghost use Rattle.quorum_sets.specs.Masters.{numbers_below};
ghost use Rattle.protocol_rules.specs.Group.{group_of};
ghost use Rattle.protocol_rules.specs.Matrix.{column};
ghost use Rattle.protocol_rules.specs.Matrix as rules;
ghost use Rattle.protocol_rules.specs.Words.{greatest_reached as greatest_reached_of};
ghost use Rattle.summary_matrix.specs.Held.{TellsEach};

use message_types::Rows;
use plain_lists::Vector;
use quorum_sets::{MASTER_PLACES, MOST_MASTERS, Sizes};

/// How far the requests of each master reach, by master.
#[derive(Clone, Copy, PartialEq, Eq)]
pub struct Reach {
    pub numbers: [u64; MASTER_PLACES],
}

/// How far rows make the requests of each master eligible: the `q`-th greatest of their numbers for it.
pub fn eligible(sizes: &Sizes, rows: &Rows) -> Reach
    requires { length rows.now ≤ MOST_MASTERS }
    ensures { (clients : ℕ) → TellsEach result.numbers (rules.eligible (group_of sizes.now clients) rows.now) }
{
    let mut reach = Reach::none();
    for place in 0..MASTER_PLACES {
        let numbers = column_of(rows.as_slice(), place);
        reach.numbers[place] = greatest_reached(leading(&numbers, rows.len()), sizes.q);
    }
    reach
}

impl Reach {
    /// Nothing reached.
    pub fn none() -> Reach
        ensures { TellsEach result.numbers (λ j. 0) }
    {
        Reach {
            numbers: [0; MASTER_PLACES],
        }
    }

    /// Takes the greater number at each place.
    pub fn raise(&mut self, other: &Reach)
        ensures { TellsEach self.new.numbers (λ j. max (slice_index self.old.numbers j) (slice_index other.now.numbers j)) }
    {
        for place in 0..MASTER_PLACES {
            self.numbers[place] = self.numbers[place].max(other.numbers[place]);
        }
    }

    /// Whether it reaches further than `offered` for one of the masters below `masters`.
    pub fn exceeds(&self, offered: &Reach, masters: u32) -> bool
        requires { masters ≤ MOST_MASTERS }
        ensures { result ≡ list_any (λ j. nat_lt (slice_index offered.now.numbers j) (slice_index self.now.numbers j)) (numbers_below masters) }
    {
        for master in 0..masters {
            let place = master as usize;
            if offered.numbers[place] < self.numbers[place] {
                return true;
            }
        }
        false
    }
}

/// The numbers of rows at one place.
fn column_of(rows: &[Vector], place: usize) -> [u64; MASTER_PLACES]
    requires { length rows.now ≤ MOST_MASTERS }
    ensures { take (length rows.now) result ≡ column rows.now place }
{
    let mut numbers = [0; MASTER_PLACES];
    for (at, row) in rows.iter().enumerate() {
        numbers[at] = number_at(row, place);
    }
    numbers
}

/// The first `count` of the numbers.
pub fn leading(numbers: &[u64], count: usize) -> &[u64]
    requires { count ≤ length numbers.now }
    ensures { result.now ≡ take count numbers.now }
{
    &numbers[..count]
}

/// A row's number at a place, 0 past its end.
pub fn number_at(row: &Vector, place: usize) -> u64
    ensures { result ≡ slice_index row.now place }
{
    let numbers = row.as_slice();
    if place < numbers.len() {
        numbers[place]
    } else {
        0
    }
}

/// The greatest of the numbers that `q` of them reach, 0 where there is none.
pub fn greatest_reached(numbers: &[u64], q: u32) -> u64
    ensures { result ≡ greatest_reached_of q numbers.now }
{
    let mut greatest = 0;
    for number in numbers {
        if *number > greatest && how_many_reach(numbers, *number) >= q as usize {
            greatest = *number;
        }
    }
    greatest
}

fn how_many_reach(numbers: &[u64], least: u64) -> usize
    ensures { result ≡ length (filter (λ y. nat_le least y) numbers.now) }
{
    numbers.iter().filter(|number| least <= **number).count()
}
