//! Tests of the log, of what no clause says: its very bytes, what is damage, a disk whose calls fail, a log that is
//! gone on with, and a disk over a file.
#![tactic(auto)]

#[cfg(test)]
mod files;
#[cfg(test)]
mod folderless;
#[cfg(test)]
mod heads;
#[cfg(test)]
mod images;
#[cfg(test)]
mod logs;
#[cfg(test)]
mod opens;
