//! What the queues carry.
ghost use Rattle.std.specs.Prelude.{◌≡◌, ◌↔◌, ◌≤◌, All, IsTrue, IfSome, IfNone, length};
ghost use Rattle.std.specs.Arc.{arc_value};
ghost use Rattle.wasm_defs.specs.Limits.{max_body};
ghost use Rattle.body_cutter.specs.Bodies.{body_of};
ghost use Rattle.body_compiler.specs.LowBatches.{IsLow, IsLowBody};

use body_cutter::{Batch, Bodies, BodyView};
use std::alloc::Global;
use std::sync::Arc;

// The offsets in a ticket's batch are below this.
const FAR: u64 = 1 << 60;

/// A batch that waits for a worker.
#[derive(Drop)]
pub struct Ticket {
    /// The number of its module.
    pub module: u32,
    /// How many batches of that module come before it.
    pub number: u32,
    /// The offset of its first body's size, below 2^60.
    pub start: u64,
    /// The batch. Its bodies have bytes, and end below 2^60.
    pub batch: Arc<Batch, Global>,
    ghost same_number: { number ≡ (arc_value batch).number },
    ghost same_start: { start ≡ (arc_value batch).start },
    ghost low: { IsLow (arc_value batch) },
}

// Whether a body has bytes, and its size and its end are below 2^60.
fn is_low_body(body: BodyView<'_>) -> bool
    requires { length body.bytes.now ≤ max_body }
    ensures { IsTrue result ↔ IsLowBody (body_of body.entry) }
{
    let len = body.bytes.len() as u64;
    body.size < FAR && 0 < len && body.first < FAR && body.first + len < FAR
}

fn are_low(bodies: &Bodies) -> bool
    ensures { IsTrue result ↔ All IsLowBody bodies.now }
{
    for index in 0..bodies.count() {
        let body = bodies.get(index);
        if !is_low_body(body) {
            return false;
        }
    }
    true
}

impl Ticket {
    /// The ticket of a batch of this module, or none where one of its offsets is 2^60 or more, or one of its bodies is empty.
    pub fn of(module: u32, batch: Arc<Batch, Global>) -> Option<Ticket>
        ensures ticket { IfSome result (λ t. arc_value t.batch ≡ arc_value batch) }
        ensures of_module { IfSome result (λ t. t.module ≡ «module») }
        ensures none { IfNone result (¬ IsLow (arc_value batch)) }
    {
        // Why: docs/DECISIONS.md, "Tickets are made of batches whose offsets are below 2^60 and whose bodies have bytes"
        if batch.start < FAR && are_low(&batch.bodies) {
            Some(Ticket::new(module, batch))
        } else {
            None
        }
    }

    /// The ticket of a batch of this module.
    pub fn new(module: u32, batch: Arc<Batch, Global>) -> Ticket
        requires { IsLow (arc_value batch) }
        ensures batch { arc_value result.batch ≡ arc_value batch }
        ensures of_module { result.module ≡ «module» }
    {
        let number = batch.number;
        let start = batch.start;
        Ticket {
            module,
            number,
            start,
            batch,
        }
    }
}
