//! One image of a module. `specs/ImageOf.antt` says which one it is, `specs/Same.antt` what it means that both behave alike, and
//! `specs/Judging.antt` what a module's verdict is, with the limit on its text. `specs/Laws.antt` has the law that they do,
//! and that images keep their bounds.
#![tactic(auto)]

mod imports;
pub mod laws;
mod limit;
mod linking;
mod segments;
mod signatures;
mod spaces;
mod tables;
mod trap_places;

pub use imports::words_before;
pub use limit::{passes_limit, text_limit};
pub use linking::link;
