//! Laws of frames, for the proofs of other crates. Each function does nothing: its contract is the law, which `specs/Laws.antt`
//! states.
ghost use Rattle.simulation.specs.FrameLaws.{SizesAreCounted, CallsAreFilled};

/// The number of a sequence's instruction words depends on no distance, and on no label's index.
#[tactic(auto, using(frame_layout::proofs::Sizes::code_size))]
pub fn sizes_are_counted()
    ensures { SizesAreCounted }
{}

/// The instruction words that a function has without distances, and its calls: once these lead to their functions, the words
/// are the function's.
#[tactic(auto, using(crate::proofs::Frames::Filling::calls_are_filled))]
pub fn calls_are_filled()
    ensures { CallsAreFilled }
{}
