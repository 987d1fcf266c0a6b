//! Where a name of a script stands.
use yard_model::EntityName;

/// A name of a script, and its place among the names.
#[derive(Clone, Copy)]
pub struct Place {
    /// The name.
    pub entity: EntityName,
    /// Its place, from 0.
    pub at: usize,
}
