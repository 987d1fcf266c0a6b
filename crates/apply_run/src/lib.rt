//! `apply`: a log is brought up to a script. What each send of the script that isn't recorded and confirmed yet brings
//! about is committed as one batch; what is so then stands in `specs/Applying.antt`.
#![tactic(auto)]

mod apply;
mod carry;
mod entered;
mod left;

pub use apply::apply_text;
pub use carry::{carry_on, carry_out, carry_within};
pub use entered::Entered;
pub use left::left_of_log_is_taken;
