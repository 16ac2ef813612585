//! The instruction words of variable, parametric and memory instructions (WebAssembly Core 1.0, 2.4.2 to 2.4.4).
//! `Templates` of `frame_layout` has the words.
#![tactic(auto)]

pub mod access;
pub mod globals;
pub mod locals;
pub mod pages;
pub mod select;
