//! What a seat knows of the room.

/// What the steps of one seat have found and taken. No value of it is made.
pub struct View {
    /// How many instruction words it has seen left last.
    pub seen: u64,
    /// How many it took.
    pub taken: u64,
}
