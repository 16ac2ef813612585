//! Validates or compiles a module while its bytes arrive, and answers the commands of the program.
#![tactic(auto)]

mod command;
mod compiling;
mod drill;
mod foreign;
mod image_pieces;
mod laws;
mod output;
mod running;
mod several;
mod shown;
mod writing;

pub use command::top;
pub use compiling::{stream_check, stream_compile};
pub use laws::{
    ended_is_owed, faults_share_no_offset, faults_stay, verdicts_are_one, what_stopped_decides,
};
pub use module_stream::{Built, Checked, Settings};
pub use source_reading::{Answer, CheckAnswer};
