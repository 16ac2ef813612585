//! Reads the rest of the input, and hands bodies over, while workers compile those that came.

ghost use Rattle.std.specs.Prelude.{◌≡◌, ◌<◌, ◌-◌, ℕ, Bool, List, Option, length};
ghost use Rattle.io_edges.specs.Streams.{TookFront};
ghost use Rattle.batch_pool.specs.Lanes.{AreDesks, Each, Reads};
ghost use Rattle.many_streams.specs.declared.member.Member.{Member};
ghost use Rattle.many_streams.specs.Many.{TakesSomeSo, TakesAllSo, ComesToEnd, IsFront};
ghost use Rattle.many_streams.specs.Members.{IsEnded};
ghost use Rattle.many_streams.specs.Rests.{IsRest, MayFlow, IsArriving, HasArrived, members_of};

use crate::flow::{Flow, hand_over_from};
use crate::reader::{FrameReader, Taken};
use crate::streams::ManyStop;
use batch_pool::{Feeder, Lane, LaneDesk, ReadingMany};
use io_edges::{Got, Source};
use std::alloc::{AllocError, Global};

/// What is still to come of the input while the compilations of its modules are lent.
#[derive(Drop)]
pub struct Rest {
    pub reader: FrameReader,
    /// What comes of each module; None of one that isn't open.
    pub flows: Vec<Option<Flow>>,
}

/// Hands over the batches that are kept of a module.
fn hand_over_flow(
    flow: &Option<Flow>,
    module: u32,
    lanes: &[Lane<'_>],
    desks: &mut Vec<LaneDesk>,
    feeder: &mut Feeder,
) -> Result<(), AllocError>
    requires { AreDesks lanes.now desks.old.items }
    ensures desks { AreDesks lanes.now desks.new.items }
    ensures each { Each Reads lanes.now desks.old.items desks.new.items }
{
    match flow {
        Some(flow) => hand_over_from(lanes, desks, feeder, module, flow.intake.kept.as_slice(), 0),
        None => Ok(()),
    }
}

impl Rest {
    /// Hands over the batches that are kept.
    fn hand_over_kept(
        &self,
        lanes: &[Lane<'_>],
        desks: &mut Vec<LaneDesk>,
        feeder: &mut Feeder,
    ) -> Result<(), AllocError>
        requires { AreDesks lanes.now desks.old.items }
        ensures desks { AreDesks lanes.now desks.new.items }
        ensures each { Each Reads lanes.now desks.old.items desks.new.items }
    {
        let count = self.flows.len().min(u32::MAX as usize) as u32;
        for number in 0..count {
            hand_over_flow(&self.flows[number as usize], number, lanes, desks, feeder)?;
        }
        Ok(())
    }

    /// Takes some of the next bytes. Those of a module that isn't open are passed over.
    fn take(
        &mut self,
        piece: &[u8],
        lanes: &[Lane<'_>],
        desks: &mut Vec<LaneDesk>,
        feeder: &mut Feeder,
    ) -> Result<usize, ManyStop>
        requires some { 0 < length piece.now }
        requires may { MayFlow self.old }
        requires desks { AreDesks lanes.now desks.old.items }
        ensures takes { (bytes : List ℕ) (keeps : Bool) (members : List Member) → IsRest bytes keeps members self.old
            → TakesSomeSo (λ came. IsRest came keeps members self.new) bytes piece.now result }
        ensures desks { AreDesks lanes.now desks.new.items }
        ensures each { Each Reads lanes.now desks.old.items desks.new.items }
    {
        match self.reader.take(piece) {
            Ok(Taken::Number) => Ok(1),
            Ok(Taken::End(_index)) => Ok(1),
            Ok(Taken::Count) => unreachable!(),
            Ok(Taken::Bytes(index, count)) => {
                let Some(flow) = &mut self.flows[index as usize] else {
                    return Ok(count);
                };
                match flow.feed(&piece[..count], index, lanes, desks, feeder) {
                    Ok(()) => Ok(count),
                    Err(_) => Err(ManyStop::NoMemory),
                }
            }
            Err(place) => Err(ManyStop::Frame(place)),
        }
    }

    /// Takes the next bytes, however the input is cut.
    fn feed(
        &mut self,
        piece: &[u8],
        lanes: &[Lane<'_>],
        desks: &mut Vec<LaneDesk>,
        feeder: &mut Feeder,
    ) -> Result<(), ManyStop>
        requires may { MayFlow self.old }
        requires desks { AreDesks lanes.now desks.old.items }
        ensures takes { (bytes : List ℕ) (keeps : Bool) (members : List Member) → IsRest bytes keeps members self.old
            → TakesAllSo (λ came. IsRest came keeps members self.new) bytes piece.now result }
        ensures desks { AreDesks lanes.now desks.new.items }
        ensures each { Each Reads lanes.now desks.old.items desks.new.items }
    {
        let mut from = 0;
        while from < piece.len() {
            match self.take(&piece[from..], lanes, desks, feeder) {
                Ok(count) => from += count,
                Err(stop) => return Err(stop),
            }
        }
        Ok(())
    }

    /// The input has ended.
    fn end(&self) -> Result<(), ManyStop>
        requires { MayFlow self.now }
        ensures { (bytes : List ℕ) (keeps : Bool) (members : List Member) → IsRest bytes keeps members self.now
            → ComesToEnd (IsEnded keeps) bytes (members_of members self.now result) }
    {
        match self.reader.end() {
            Ok(()) => Ok(()),
            Err(place) => Err(ManyStop::Frame(place)),
        }
    }

    /// The source failed. What came is frames, or the front of some.
    fn stop(&self) -> ManyStop
        requires { MayFlow self.now }
        ensures fault { result ≡ ManyStop.ReadFault }
        ensures front { (bytes : List ℕ) (keeps : Bool) (members : List Member) → IsRest bytes keeps members self.now → IsFront bytes }
    {
        let _ = self.reader.end();
        ManyStop::ReadFault
    }
}

/// Reads the rest of the input to its end, to the source's error, or to where it is no frames, and hands bodies over, first those that
/// are kept already.
pub fn read_rest<S: Source>(
    source: &mut S,
    buf: &mut [u8],
    rest: &mut Rest,
    lanes: &[Lane<'_>],
    desks: &mut Vec<LaneDesk>,
    feeder: &mut Feeder,
) -> Result<(), ManyStop>
    requires room { 0 < length buf.old }
    requires arrives { (first : Option (List ℕ)) × (before : ℕ) × (keeps : Bool) × (members : List Member)
        × IsArriving first before (S.left source.old) (S.faults source.old) (S.is_open source.old) keeps members rest.old }
    requires desks { AreDesks lanes.now desks.old.items }
    ensures arrived { (first : Option (List ℕ)) (before : ℕ) (keeps : Bool) (members : List Member)
        → IsArriving first before (S.left source.old) (S.faults source.old) (S.is_open source.old) keeps members rest.old
        → HasArrived first before (S.left source.new) (S.faults source.new) keeps members result rest.new }
    ensures front { TookFront (S.left source.old) (S.faults source.old) (S.left source.new) (S.faults source.new) }
    ensures desks { AreDesks lanes.now desks.new.items }
    ensures each { Each Reads lanes.now desks.old.items desks.new.items }
{
    let Ok(()) = rest.hand_over_kept(lanes, desks, feeder) else {
        return Err(ManyStop::NoMemory);
    };
    loop {
        feeder.flush();
        match source.read(buf) {
            Got::Bytes(count) => match rest.feed(&buf[..count], lanes, desks, feeder) {
                Ok(()) => {}
                Err(stop) => return Err(stop),
            },
            Got::End => return rest.end(),
            Got::Failed => return Err(rest.stop()),
        }
    }
}

/// Where the reading pauses, while workers are started.
#[derive(Drop)]
pub struct Pause {
    pub rest: Rest,
    /// What bytes are read into.
    pub buffer: Vec<u8>,
}

/// Reads the rest of the input of a source.
#[derive(Drop)]
pub struct RestReader<'a, S> {
    pub source: &'a mut S,
    pub pause: Pause,
    /// How the reading ended.
    pub read: Result<(), ManyStop>,
}

impl<'a, S: Source> RestReader<'a, S> {
    /// Before the first read.
    pub fn new(source: &'a mut S, pause: Pause) -> Self
        ensures same_reference { result.source.ghost_name ≡ source.entry.ghost_name }
        ensures source { result.source.now ≡ source.old }
        ensures pause { result.pause ≡ pause }
    {
        RestReader {
            source,
            pause,
            read: Ok(()),
        }
    }
}

impl<'a, S: Source> ReadingMany for RestReader<'a, S> {
    ghost can_read = { λ r. (0 < length r.pause.buffer.items)
        × ((first : Option (List ℕ)) × (before : ℕ) × (keeps : Bool) × (members : List Member)
        × IsArriving first before (S.left r.source.now) (S.faults r.source.now) (S.is_open r.source.now) keeps members r.pause.rest) };

    ghost reads = { λ r t. (t.source.ghost_name ≡ r.source.ghost_name)
        × TookFront (S.left r.source.now) (S.faults r.source.now) (S.left t.source.now) (S.faults t.source.now)
        × ((first : Option (List ℕ)) (before : ℕ) (keeps : Bool) (members : List Member)
        → IsArriving first before (S.left r.source.now) (S.faults r.source.now) (S.is_open r.source.now) keeps members r.pause.rest
        → HasArrived first before (S.left t.source.now) (S.faults t.source.now) keeps members t.read t.pause.rest) };

    fn read(&mut self, lanes: &[Lane<'_>], desks: &mut Vec<LaneDesk>, feeder: &mut Feeder) {
        self.read = read_rest(
            self.source,
            self.pause.buffer.as_mut_slice(),
            &mut self.pause.rest,
            lanes,
            desks,
            feeder,
        );
    }
}
