//! How runs end.
use rv64im_machine::FaultKind;
use wasm_defs::{Place, TrapKind};

/// How a run of an exported function ends.
#[derive(Clone, Copy, Debug, PartialEq, Eq)]
pub enum Outcome {
    /// The function returned, with so many results.
    Returned(u32),
    /// It trapped (WebAssembly Core 1.0, 4.4), at this point of the module, where the image says it.
    Trapped(TrapKind, Option<Place>),
    /// All steps were made, and it hadn't ended.
    StepsSpent,
    /// The host's reply to a call was `Stop`, or was taken so.
    HostStopped,
    /// The machine has no step at this address, or the environment was called there in a way that it doesn't know.
    Fault(FaultKind, u64),
}
