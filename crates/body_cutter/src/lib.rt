//! Cuts the code section into its function bodies while its bytes come, however they are cut into pieces, and hands the
//! bodies over in batches (WebAssembly Core 1.0, 5.5.13).
#![tactic(auto)]

mod batch;
mod block;
mod body;
mod cutter;
mod laws;
mod queue;
mod walk;

pub use batch::{Batch, Bodies};
pub use block::BodyBlock;
pub use body::BodyView;
pub use cutter::Cutter;
pub use laws::batches_join_to_the_bodies;
