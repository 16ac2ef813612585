//! What comes of a call of the environment.
use crate::outcome::Outcome;

/// What comes of a call of the environment.
#[derive(Clone, Copy, Debug, PartialEq, Eq)]
pub(crate) enum Answer {
    /// The machine goes on after the call.
    GoesOn,
    /// The function has ended that was called from outside.
    Ended,
    /// The run is over.
    Over(Outcome),
}
