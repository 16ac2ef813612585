//! Why what reads a module outside its bodies stops.

use crate::fault::Refusal;
use thiserror::Error;

/// Why no further part of a module is given.
#[derive(Clone, Copy, Debug, PartialEq, Eq, Error)]
pub enum FrontStop {
    /// The module has this error outside its bodies, and no error outside its bodies comes before it. Where the bytes end
    /// too soon, its kind is `Ended` and its offset their number.
    #[error("refused at {offset}: {kind:?}", offset = .0.offset, kind = .0.kind)]
    Refused(Refusal),
    /// Memory ran out.
    #[error("memory ran out")]
    NoMemory,
}
