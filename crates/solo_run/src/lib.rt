//! `solo`: from a script to its report. What the engine keeps of each entity is what was posted to it, and
//! what is recorded of it (`specs/Knowledge.antt`); that the journals are sound is a law over the definition
//! alone (`proofs/SoloLaws.antt`).
#![tactic(auto)]

mod engine;
mod entities;
mod entity;
mod played;
mod posts;
mod solo;
mod sound;

pub use solo::solo_report;
pub use sound::journals_are_sound;
