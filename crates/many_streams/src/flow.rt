//! What comes of a module while its compilation is lent to workers.

ghost use Rattle.std.specs.Prelude.{◌++◌, ℕ, List, OnOk};
ghost use Rattle.batch_pool.specs.Lanes.{AreDesks, Each, Reads};
ghost use Rattle.many_streams.specs.declared.member.Part.{Part as Lent};
ghost use Rattle.many_streams.specs.Members.{IsFed};
ghost use Rattle.many_streams.specs.Flows.{part_with};

use crate::intake::Intake;
use crate::member::front_of;
use batch_pool::{Feeder, Lane, LaneDesk, hand_over_at};
use body_cutter::Batch;
use module_stream::MAX_READ;
use std::alloc::{AllocError, Global};
use std::sync::Arc;

/// What came of a module whose bodies are kept.
#[derive(Drop)]
pub struct Flow {
    /// How many of its bytes were taken.
    pub fed: usize,
    pub intake: Intake,
}

/// Hands the batches of a module over from the one with this index on.
pub fn hand_over_from(
    lanes: &[Lane<'_>],
    desks: &mut Vec<LaneDesk>,
    feeder: &mut Feeder,
    module: u32,
    kept: &[Arc<Batch, Global>],
    from: usize,
) -> Result<(), AllocError>
    requires { AreDesks lanes.now desks.old.items }
    ensures desks { AreDesks lanes.now desks.new.items }
    ensures each { Each Reads lanes.now desks.old.items desks.new.items }
{
    for k in from..kept.len() {
        hand_over_at(lanes, desks, feeder, module, &kept[k])?;
    }
    Ok(())
}

impl Flow {
    /// Takes the next bytes of the module.
    fn take(&mut self, piece: &[u8]) -> Result<(), AllocError>
        requires { (came : List ℕ) × (p : Lent) × IsFed came (part_with p self.old) }
        ensures { OnOk result ((came : List ℕ) (p : Lent) → IsFed came (part_with p self.old) → IsFed (came ++ piece.now) (part_with p self.new)) }
    {
        let part = front_of(piece, MAX_READ - self.fed);
        self.intake.feed(part)?;
        self.fed += part.len();
        Ok(())
    }

    /// Takes the next bytes of the module, and hands over the batches that close.
    pub fn feed(
        &mut self,
        piece: &[u8],
        module: u32,
        lanes: &[Lane<'_>],
        desks: &mut Vec<LaneDesk>,
        feeder: &mut Feeder,
    ) -> Result<(), AllocError>
        requires fed { (came : List ℕ) × (p : Lent) × IsFed came (part_with p self.old) }
        requires desks { AreDesks lanes.now desks.old.items }
        ensures fed { OnOk result ((came : List ℕ) (p : Lent) → IsFed came (part_with p self.old) → IsFed (came ++ piece.now) (part_with p self.new)) }
        ensures desks { AreDesks lanes.now desks.new.items }
        ensures each { Each Reads lanes.now desks.old.items desks.new.items }
    {
        let from = self.intake.kept.len();
        self.take(piece)?;
        hand_over_from(
            lanes,
            desks,
            feeder,
            module,
            self.intake.kept.as_slice(),
            from,
        )
    }
}
