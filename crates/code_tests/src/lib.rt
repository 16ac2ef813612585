//! Tests of what makes words of RV64IM and of what runs them: `rv_isa`, `code_list`, `frame_layout`, `integer_emit`, `memory_emit`, `bulk_emit`,
//! `table_calls`, `body_compiler` and `rv64im_machine`. The values come from outside: the GNU assembler, `qemu-riscv64`, the manual's
//! tables, and hand-worked words. They are in a crate of their own, since a check of tests proves again all that is next to them.
#![tactic(auto)]

#[cfg(test)]
mod bodies;
#[cfg(test)]
mod bulk;
#[cfg(test)]
mod emitted;
#[cfg(test)]
mod machine;
#[cfg(test)]
mod rows;
#[cfg(test)]
mod words;
