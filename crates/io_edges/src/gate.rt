ghost use Rattle.std.specs.Prelude.{◌≡◌};

/// What a gate answers a worker.
#[derive(Debug, Clone, Copy, PartialEq, Eq)]
pub enum Go {
    /// The worker runs the batch.
    Run,
    /// The worker asks again, with the next turn.
    Hold,
}

/// Says when a worker may run a batch, so that a caller can set the order in which batches run.
///
/// Before it runs a batch, a worker asks with turn 0, 1, 2 and so on, until it is answered `Run`. At
/// turn 1,048,576 it runs the batch whatever is answered, so a gate can't hold it for good. Workers
/// ask side by side. The gate has no part in the answer that they work out.
pub trait Gate: Sync {
    /// May this batch be run now? Batches and turns are numbered from 0.
    fn enter(&self, batch: u32, turn: u32) -> Go;

    /// Says that the worker is done with this batch.
    fn finished(&self, batch: u32);
}

/// A gate that holds no worker.
#[derive(Debug, Clone, Copy, PartialEq, Eq, Default)]
pub struct OpenGate;

impl Gate for OpenGate {
    fn enter(&self, _batch: u32, _turn: u32) -> Go
        ensures { result ≡ Go.Run }
    {
        Go::Run
    }

    fn finished(&self, _batch: u32) {}
}
