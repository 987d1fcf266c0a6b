//! Laws of what is plain: tests, numbers, names, places of a table, members. Those that other crates cite
//! stand in `proofs/`: of tests, and of tests that hold of each item of a list (`Booleans`); of tables and
//! lists (`Lists`); of names in order (`Names`); of members (`Members`); and of what is read off a list of
//! facts, after one more (`Read`). Three of them are the contracts of functions that do nothing.
#![tactic(auto)]

pub mod plain;
