//! The top call: words and a source in, texts out to a sink, and a status. Each status has its
//! cause as a clause of the call. Before it, the arguments as they come, and notices.
#![tactic(auto)]

mod disk;
mod live;
mod program;
mod script;
mod text;
mod top;

pub use program::run;
pub use program_words::{Form, Status};
pub use top::{sharder, sharder_alone, sharder_on};
