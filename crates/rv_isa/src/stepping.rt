//! What the step table of `specs/Steps.antt` has in addition to operations.

/// A region of bytes that loads reach.
#[derive(Clone, Copy, Debug, PartialEq, Eq)]
pub enum Region {
    /// From address 0x2000_0000 on.
    Stack,
    /// From address 0x3000_0000 on.
    Globals,
    /// From address 0x4000_0000 on. Stores don't reach it.
    Table,
    /// From address 0x5000_0000 on.
    Memory,
    /// From address 0x7000_0000 on. Stores don't reach it.
    Passive,
}

/// Why there is no step.
#[derive(Clone, Copy, Debug, PartialEq, Eq)]
pub enum FaultKind {
    /// The program counter isn't a multiple of 4, or is outside the text.
    Fetch,
    /// The instruction word is none of RV64IM.
    Word,
    /// An EBREAK.
    Break,
    /// A jump or a taken branch to an address that isn't a multiple of 4.
    Target,
    /// A load of bytes that aren't all in one region.
    Load,
    /// A store to bytes that aren't all in one region, or that are in the table or the passive region.
    Store,
    /// A call that the environment doesn't have. The step table itself never gives it.
    Call,
}
