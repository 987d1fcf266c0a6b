//! Laws of the definitions. Each is a function that does nothing, whose contract is the law; a proof
//! that needs it calls the function.
#![tactic(auto)]

pub mod acts;
pub mod coordinator;
pub mod entities;
pub mod equal;
pub mod facts;
pub mod queue;
pub mod safety;
pub mod trace;
