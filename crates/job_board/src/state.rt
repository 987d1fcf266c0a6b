//! What is known of a job.
use yard_model::Incarnation;

/// What is known of a job.
#[derive(Clone, Copy, Debug, PartialEq, Eq)]
pub enum JobState {
    /// It isn't queued yet.
    Unqueued,
    /// It is queued, and at no worker.
    Free,
    /// It is at this worker.
    Given(Incarnation),
    /// It was done, and the producer knows.
    Confirmed,
}
