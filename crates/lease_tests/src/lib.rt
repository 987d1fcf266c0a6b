//! Tests of what threads share: the table of leases, one way through it on one thread and on two, and many rounds of two
//! threads for one slot; and the boxes.
#![tactic(auto)]

#[cfg(test)]
mod boxes;
#[cfg(test)]
mod passes;
#[cfg(test)]
mod rounds;
#[cfg(test)]
mod ways;
