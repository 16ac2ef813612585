//! Several modules interleaved in one input.
#![tactic(auto)]

mod alone;
mod flow;
mod intake;
mod judging;
mod laws;
mod limits;
mod member;
mod reader;
mod rest;
mod several;
mod streams;
mod working;

pub use flow::Flow;
pub use intake::Intake;
pub use laws::frames_are_one;
pub use limits::{MAX_INPUT, MAX_MODULES};
pub use member::{Each, EachChecked, Member, Part};
pub use reader::{FrameReader, Taken};
pub use rest::{Pause, Rest, RestReader};
pub use several::{check_many, many};
pub use streams::{ManyStop, Streams};
