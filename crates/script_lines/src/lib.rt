//! Scripts of plays, the words that intruded masters are made to say, and what each actor of a run is given from outside.
#![tactic(auto)]

mod given;
mod saying;
mod script;
mod step;
mod word;
mod word_fields;

pub use given::inputs;
pub use saying::{Saying, Words};
pub use script::{Line, Script};
pub use script_grammar::ScriptRefusal;
pub use step::{Step, Ticking};
