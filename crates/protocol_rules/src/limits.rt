use message_types::MOST_CERTIFICATES;

/// Pre-order numbers of a master, and global numbers, go from 1 to this.
pub const MOST_NUMBER: u64 = 4096;

/// Numbers are offered no further than this above the stable one: a report can show a certificate for each.
pub const WINDOW: u64 = MOST_CERTIFICATES as u64;

/// Marks are said for each number that is a multiple of this.
pub const MARK_STEP: u64 = 8;

/// Views go from 0 to this.
pub const MOST_VIEW: u64 = 255;

/// A master counts no more ticks than this.
pub const MOST_TICKS: u64 = 4_294_967_296;

/// No bound that a master tells of a leader is longer, in ticks: the figure of the longest round trip.
pub const MOST_BOUND: u64 = 2 * MOST_TICKS + 4;

/// By the rules that stay alive, what isn't answered is said again at each tick that is a multiple of this.
pub const BEAT: u64 = 16;

/// What isn't certified, or isn't ordered, is said again at each tick that is a multiple of this.
pub const SLOW_BEAT: u64 = 32;

/// The wait above which a master votes against the leaders of the first views, in ticks.
pub const FIRST_PATIENCE: u64 = 32;

/// Patience is doubled no more often than this.
pub const MOST_DOUBLINGS: u64 = 16;

/// One view is forgiven for each so many ticks.
pub const FORGIVEN_STEP: u64 = 1024;

/// A master that has waited for longer than this, in ticks, asks for the numbers that it lacks.
pub const LONG_WAIT: u64 = 16;

/// The next number is asked for, whatever is known of it, at each tick that is a multiple of this.
pub const BLIND_STEP: u64 = 128;

/// What some summaries show certified is kept, and what they showed a step before is wanted, at each tick that is a
/// multiple of this.
pub const SHOWN_STEP: u64 = 4;

/// No more numbers are asked for at a tick.
pub const MOST_NUMBERS_ASKED: u64 = 64;

/// No more requests are asked for at a tick.
pub const MOST_REQUESTS_ASKED: u64 = 16;

/// As many answers each master may have of another one, whatever that one has.
pub const FIRST_SHARE: u64 = 64;

/// It may have one answer more for each so many ticks.
pub const SHARE_STEP: u64 = 4;

/// It may have so many answers more for each number ordered and each request certified.
pub const SHARE_OF_EACH: u64 = 4;
