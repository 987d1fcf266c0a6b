//! Laws of a node by itself, and of the nodes of a cluster, whatever packets come: what stands of a node
//! between its turns, that each turn and a crash keep it, and that what it tells may stand where it is told,
//! by what it has in hand (`node`, `hand`). So turns and crashes of the nodes of a cluster keep their trace
//! guarded (`cluster`), and what a packet carries stays vouched for (`carried`). Each law is a function that
//! does nothing, whose contract is the law. Of each actor: `actor_laws`.
#![tactic(auto)]

pub mod carried;
pub mod cluster;
pub mod hand;
pub mod node;
