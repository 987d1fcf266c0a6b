//! Tests of the whole program, of what no clause says: of the top call, the texts of known scripts, runs whose reads
//! or writes fail in turn, scripts that are cut off, logs and what a crash leaves of them, and nodes as threads; of
//! these nodes, what a worker's draws make of a packet, and what the workers of a busy run let go.
#![tactic(auto)]

#[cfg(test)]
mod applied;
#[cfg(test)]
mod counts;
#[cfg(test)]
mod cuts;
#[cfg(test)]
mod faults;
#[cfg(test)]
mod fixtures;
#[cfg(test)]
mod live;
#[cfg(test)]
mod logs;
#[cfg(test)]
mod mails;
#[cfg(test)]
mod meeting;
#[cfg(test)]
mod rosters;
#[cfg(test)]
mod stored;
#[cfg(test)]
mod texts;
