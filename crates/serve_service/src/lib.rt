//! A log that is served: opened, and gone on with by groups of lines.
#![tactic(auto)]

mod commit;
mod fault;
mod opening;
mod service;

pub use fault::OpenFault;
pub use service::Service;
