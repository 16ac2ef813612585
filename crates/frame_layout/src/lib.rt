//! Where a function's values are on the stack, and the instruction words of each instruction.
//!
//! A frame's slots have eight bytes each: first the parameters and the declared locals, then the return address, then the
//! operands. Register s0 has the address of the first slot. `specs/Templates.antt` has the instruction words of the
//! instructions, and `specs/Functions.antt` those of a function.
#![tactic(auto)]

mod laws;
mod layout;
pub mod macros;
pub mod registers;
mod slots;
mod traps;
pub mod words;

pub use laws::{
    add_law, const_law, epilogue_law, exhaustion_law, exit_law, import_exhaustion_law, import_law,
    import_return_law, local_get_law, prologue_law, spaced_law, traps_law,
};
pub use layout::Layout;
pub use slots::{load_slot, store_slot};
pub use traps::note_traps;
