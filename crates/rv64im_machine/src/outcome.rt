//! What comes of a step and of a run.
use rv_isa::FaultKind;

/// What comes of a step.
#[derive(Clone, Copy, Debug, PartialEq, Eq)]
pub enum Stepped {
    /// The machine is at the next word.
    Next,
    /// The environment is called, and the machine is after the ECALL.
    Call,
    /// There is no step, and the machine is as before.
    Fault(FaultKind),
}

/// What comes of a run of at most so many steps.
#[derive(Clone, Copy, Debug, PartialEq, Eq)]
pub enum Ran {
    /// All steps were made.
    Spent,
    /// The environment is called, and the machine is after the ECALL. So many steps were made, the ECALL among
    /// them.
    Call(u64),
    /// So many steps were made, and there is no further one. The machine is as it was before that try, which isn't
    /// counted.
    Fault(u64, FaultKind),
}
