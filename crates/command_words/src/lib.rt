//! The words of the command line, read with `clap`: which command they ask for, and with which values. `clap`'s own rules
//! hold, and no others: options stand anywhere behind the subcommand, `--` ends them, a number may have a plus sign and
//! leading zeros. Requests for help are refused as other words are.
#![tactic(auto)]

mod asked;
mod command_line;
mod read;

pub use crate::asked::Asked;
pub use crate::command_line::MOST_KEEPS;
pub use crate::read::{WordsAnswer, read_words};
