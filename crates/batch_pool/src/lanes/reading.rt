//! What a thread that reads several modules does while workers compile.
ghost use Rattle.batch_pool.specs.Lanes.{AreDesks, Each, Reads};

use crate::feeder::Feeder;
use crate::lanes::lane::{Lane, LaneDesk};
use crate::lanes::many::lane_of;
use body_cutter::Batch;
use std::alloc::{AllocError, Global};
use std::sync::Arc;

/// What the thread that reads several modules does while workers compile.
pub trait ReadingMany {
    /// Whether it may begin.
    ghost can_read: { Self → Type 0 };

    /// What it is after the reading.
    ghost reads: { Self → Self → Type 0 };

    /// Reads, and hands batches over at the desks.
    fn read(&mut self, lanes: &[Lane<'_>], desks: &mut Vec<LaneDesk>, feeder: &mut Feeder)
        requires desks { AreDesks lanes.now desks.old.items }
        requires can { can_read self.old }
        ensures desks { AreDesks lanes.now desks.new.items }
        ensures each { Each Reads lanes.now desks.old.items desks.new.items }
        ensures reads { reads self.old self.new };
}

/// Hands a batch over at its module's lane, if there is one.
pub fn hand_over_at(
    lanes: &[Lane<'_>],
    desks: &mut Vec<LaneDesk>,
    feeder: &mut Feeder,
    module: u32,
    batch: &Arc<Batch, Global>,
) -> Result<(), AllocError>
    requires { AreDesks lanes.now desks.old.items }
    ensures desks { AreDesks lanes.now desks.new.items }
    ensures each { Each Reads lanes.now desks.old.items desks.new.items }
{
    let Some(k) = lane_of(lanes, module) else {
        return Ok(());
    };
    let lane = &lanes[k];
    let here = &mut desks[k];
    here.desk
        .hand_over(&lane.board, lane.context, feeder, batch)
}
