//! Laws of the encoding of bodies (WebAssembly Core 1.0, 5.4 and 5.5.13): the reader reads what the grammar of
//! `wasm_defs` encodes, and the grammar has one reading of any bytes.
#![tactic(auto)]

mod spelling;

pub use spelling::{
    bodies_are_spelled, codes_are_one, fronts_are_read, modules_have_spelled_bodies,
    opcodes_are_rows, wrong_locals_are_told,
};
