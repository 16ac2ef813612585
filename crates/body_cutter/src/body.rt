//! Function bodies that are complete.

/// A function body in the code section (Core 5.5.13). Its bytes are among those of its batch.
#[derive(Clone, Copy)]
pub struct BodyView<'a> {
    /// The index of the body's function, imported functions counted.
    pub index: u32,
    /// The offset of the body's size, counted from the module's first byte.
    pub size: u64,
    /// The offset of the body's first byte.
    pub first: u64,
    /// The body: its locals, its instructions and its `end`, at most 1,048,576 bytes. They aren't validated.
    pub bytes: &'a [u8],
}

/// A function body, and where its bytes end among those of its batch. They begin where those of the body before it end.
#[derive(Clone, Copy, Debug, PartialEq, Eq)]
pub struct Cut {
    /// The index of the body's function, imported functions counted.
    pub index: u32,
    /// The offset of the body's size, counted from the module's first byte.
    pub size: u64,
    /// The offset of the body's first byte.
    pub first: u64,
    /// The number of the batch's bytes up to the body's end.
    pub end: usize,
}

/// How many bodies and bytes a block has.
#[derive(Clone, Copy, Debug, PartialEq, Eq)]
pub struct Mark {
    /// The number of complete bodies.
    pub bodies: usize,
    /// The number of bytes, those of the body in hand among them.
    pub bytes: usize,
}
