//! Tests of what reads and validates a module, by bytes, items and tokens that were worked out by hand: `wasm_defs`, `io_edges`, `leb_feed`,
//! `section_reader`, `body_cutter`, `index_spaces`, `body_validator` and `module_gen`. They are in a crate of their own, since a check of
//! tests proves again all that is next to them.
#![tactic(auto)]

#[cfg(test)]
mod check;
#[cfg(test)]
mod cutter;
#[cfg(test)]
mod drills;
#[cfg(test)]
mod edges;
#[cfg(test)]
mod front;
#[cfg(test)]
mod numbers;
#[cfg(test)]
mod opcodes;
#[cfg(test)]
mod spaces;
