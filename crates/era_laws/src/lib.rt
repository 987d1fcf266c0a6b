//! Laws of eras: what a world begins with that comes to given lists (`opening`), and what another number
//! of shards does to the lists (`reshape`). Each is a function that does nothing, whose contract is the
//! law; a proof that needs it calls the function.
#![tactic(auto)]

pub mod opening;
pub mod reshape;
