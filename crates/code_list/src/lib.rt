//! The codes of functions, one after the other: the instruction words of all of them are one list, which becomes an image's text.
#![tactic(auto)]

mod list;

pub use list::{CodeEnd, CodeList, CodeParts, CodeView};
