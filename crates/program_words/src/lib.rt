//! The words that a run of the program begins with, and what it leaves beside its text: the exit
//! status, and a line on standard error.
#![tactic(auto)]

mod explain;
mod forms;
mod notice;
mod status;
mod words;

pub use explain::{explanation_of_reason, reads_script};
pub use forms::{Form, ScriptFrom, alone_form_of, disk_form_of, form_of};
pub use notice::{Notice, notice_of};
pub use status::Status;
pub use words::{status_without_words, without_name, words_of};
