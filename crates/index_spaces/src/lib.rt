//! The index spaces of a module (WebAssembly Core 1.0, 2.5.1 and 3.1): what its functions may name, and by which indices.
#![tactic(auto)]

mod add_stop;
mod builder;
mod context;
mod entries;
mod laws;
mod type_space;

pub use add_stop::AddStop;
pub use builder::{ContextBuilder, copy_of_name, copy_of_type};
pub use context::Context;
pub use entries::{DataRow, ElementRow, Export, Import};
pub use laws::{
    contexts_are_of_items, elements_are_of_items, exports_are_of_items, imports_are_functions,
    items_are_added, like_is_least, segments_are_of_items, values_are_of_items,
};
