//! Laws of the actors of a node, each by itself, whatever the other actors and nodes do: what stands of it
//! between its rules, that each rule keeps it, that the facts which a rule tells may stand where they are
//! told, by what it has in hand (`specs/Owes.antt`, `specs/Hands.antt`), and that each packet it posts comes
//! from its node and is made of the script. Each law is a function that does nothing, whose contract is the
//! law. Of a node whole: `node_laws`.
#![tactic(auto)]

pub mod coordinator;
pub mod entities;
pub mod messages;
pub mod producer;
pub mod region;
pub mod start;
