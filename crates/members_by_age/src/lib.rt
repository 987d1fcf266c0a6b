//! Who is a member of the cluster, by age: a map in the order of its entries, from nodes to the numbers
//! of their incarnations (Akka 2.6, Cluster: members by age).
#![tactic(auto)]

mod by_age;

pub use by_age::ByAge;
