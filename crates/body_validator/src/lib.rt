//! Validation of function bodies, token by token in one pass (WebAssembly Core 1.0, 3.3, and the algorithm of appendix 7.3).
#![tactic(auto)]

mod accesses;
mod check;
mod instruction_types;
mod kept;
mod laws;
mod lists;
mod locals;
mod operands;
mod scope;
mod stack;
mod steps;

pub use check::{Check, Shape, Step, TokenStop};
pub use laws::{
    bodies_are_accepted, checker_is_exact, fronts_are_viable, heights_are_measured,
    places_are_kept, trees_are_one, types_are_compared,
};
