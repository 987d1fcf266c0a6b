//! A node's view of the cluster's members, oldest first (Akka 2.6, Cluster: members by age).
//! Which of two views stands, the one of the greater version, is this project's own rule.
#![tactic(auto)]

mod view;

pub use view::View;
