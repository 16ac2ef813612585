//! Laws of how a module's bytes are read: what more bytes change, how far reading goes, where its parts and its first error
//! are, and that it reads what the grammar encodes. The definitions are those of `wasm_defs`.
#![tactic(auto)]

mod grammar;
mod laws;

pub use grammar::{items_are_one, items_hold_few_bytes, modules_are_spelled};
pub use laws::{
    bodies_are_in_order, bodies_are_steady, bodies_match_functions, bodies_stand_behind_items,
    exports_are_there, functions_have_types, immediates_are_in_range, imports_return_one,
    locals_keep_limits, more_bytes_change_nothing, offsets_are_short, others_stand_around,
    parts_are_in_order, reading_is_bounded, sections_are_steady, spaces_keep_limits,
    start_functions_take_nothing, types_keep_limits,
};
