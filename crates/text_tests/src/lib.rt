//! Tests of what is read and printed, and of outside vectors: streams, scripts, the report as JSON, hash codes.
#![tactic(auto)]

#[cfg(test)]
mod faults;
#[cfg(test)]
mod hashes;
#[cfg(test)]
mod report;
#[cfg(test)]
mod scripts;
#[cfg(test)]
mod streams;
