//! The limits of this implementation (Core, appendix "Implementation Limitations", lets an implementation set them), and
//! one bound of the standard. All of them are here.

/// Bytes of a module: what is read is bounded.
pub const MAX_MODULE: u64 = 67_108_864;

/// Bytes of a body: a body is held whole while it is validated.
pub const MAX_BODY: u32 = 1_048_576;

/// Types; imports; imports and functions together; globals; exports; element segments; data segments: so many of each.
pub const MAX_ENTRIES: u32 = 100_000;

/// Parameters of a function type.
pub const MAX_PARAMS: u32 = 1_000;

/// Results of a function type.
pub const MAX_RESULTS: u32 = 1_000;

/// Declared locals of a body, its parameters not counted.
pub const MAX_LOCALS: u32 = 50_000;

/// Bytes of a name.
pub const MAX_NAME: u32 = 100_000;

/// The least number of rows that a table may ask for.
pub const MAX_TABLE: u32 = 100_000;

/// The least number of pages that a memory may ask for: 256 MiB.
pub const MAX_PAGES: u32 = 4_096;

/// Bytes of a compiled module's text: a region of the machine holds them.
pub const MAX_TEXT: u32 = 268_435_456;

/// The greatest maximum of a memory, in pages (Core 3.2.4): not a limit of this implementation but of the standard.
pub const TOP_PAGES: u32 = 65_536;
