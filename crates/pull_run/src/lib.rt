//! `pull`: from a script of jobs to its trace, which is written as it arises, and the report of the jobs.
//! After n lines the facts are those of the definition's first n (`specs/Pulls.antt`).
#![tactic(auto)]

mod pull;

pub use pull::write_pull;
