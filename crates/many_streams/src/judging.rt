//! Judges modules that have ended.

ghost use Rattle.std.specs.Prelude.{◌≡◌, ◌<◌, ℕ, Bool, List, Option, length, nat_lt, IfOk};
ghost use Rattle.io_edges.specs.Streams.{TookFront};
ghost use Rattle.many_streams.specs.Flows.{members_with, AreLent, AreWaiting};
ghost use Rattle.many_streams.specs.Many.{AreEach, ComesToMany, view};
ghost use Rattle.many_streams.specs.Members.{IsEnded, IsJudged};
ghost use Rattle.std.specs.Thread.{IsSync};
ghost use Rattle.many_streams.specs.Rests.{IsPaused};
ghost use Rattle.many_streams.specs.Workers.{AreMade, AreSettled};

use crate::flow::Flow;
use crate::member::Member;
use crate::rest::{Pause, Rest};
use crate::streams::{ManyStop, Streams};
use crate::working::{Done, Made, nothing_made, work_beside};
use io_edges::{Gate, Source};
use std::alloc::{AllocError, Global};
use std::sync::Wait;
use std::thread::{self, Threads};

/// Judges modules that have ended, each with what workers made of its bodies. Err where memory ran out.
fn settle_members(
    alloc: Global,
    members: Vec<Member>,
    made: Vec<Made>,
) -> Result<Vec<Member>, AllocError>
    requires ended { (keeps : Bool) × (list : List (List ℕ)) × AreEach (IsEnded keeps) list members.items }
    requires made { AreMade members.items made.items }
    ensures { IfOk result (λ v. AreSettled members.items v.items) }
{
    let mut judged = Vec::new(alloc);
    let mut rest = made.into_iter();
    for member in members {
        let Some(part) = rest.next() else {
            return Err(AllocError);
        };
        let Made { cells, rows } = part;
        let one = member.settle(&cells, rows)?;
        judged.push(one)?;
    }
    Ok(judged)
}

/// Judges modules that have ended, as `settle_members` does, by the caller and so many other threads, each some of the modules: comparing,
/// validating what is left and freeing takes time, and nothing of one module hangs on another.
fn settle_beside<R: Threads + Sync>(
    rt: &R,
    alloc: Global,
    members: Vec<Member>,
    made: Vec<Made>,
    others: u32,
) -> Result<Vec<Member>, AllocError>
    requires ended { (keeps : Bool) × (list : List (List ℕ)) × AreEach (IsEnded keeps) list members.items }
    requires made { AreMade members.items made.items }
    ensures { IfOk result (λ v. AreSettled members.items v.items) }
{
    let half = members.len() / 2;
    if others == 0 || half == 0 {
        return settle_members(alloc, members, made);
    }
    let (mut front, mut front_made) = (members, made);
    let back = front.split_off(half)?;
    let back_made = front_made.split_off(half)?;
    let more = others / 2;
    let fewer = others - 1 - more;
    let (judged, rest) = thread::join(
        rt,
        move || -> Result<Vec<Member>, AllocError>
            requires sync { IsSync R.row }
            requires ended { (keeps : Bool) × (list : List (List ℕ)) × AreEach (IsEnded keeps) list front.items }
            requires made { AreMade front.items front_made.items }
            ensures { IfOk result (λ v. AreSettled front.items v.items) }
        { settle_beside(rt, alloc, front, front_made, more) },
        move || -> Result<Vec<Member>, AllocError>
            requires sync { IsSync R.row }
            requires ended { (keeps : Bool) × (list : List (List ℕ)) × AreEach (IsEnded keeps) list back.items }
            requires made { AreMade back.items back_made.items }
            ensures { IfOk result (λ v. AreSettled back.items v.items) }
        { settle_beside(rt, alloc, back, back_made, fewer) },
    );
    let mut judged = judged?;
    let mut rest = rest?;
    judged.append(&mut rest)?;
    Ok(judged)
}

/// Judges modules that have ended, on the caller's thread. Err where memory ran out.
pub fn judge_ended(alloc: Global, members: Vec<Member>) -> Result<Vec<Member>, AllocError>
    requires { (keeps : Bool) × (list : List (List ℕ)) × AreEach (IsEnded keeps) list members.items }
    ensures { IfOk result (λ v. AreSettled members.items v.items) }
{
    let made = nothing_made(alloc, members.as_slice())?;
    settle_members(alloc, members, made)
}

/// Takes out what came of each module, so that their compilations may be lent. Err where memory ran out.
fn take_flows(alloc: Global, members: &mut Vec<Member>) -> Result<Vec<Option<Flow>>, AllocError>
    requires { AreWaiting members.old.items }
    ensures count { IfOk result (λ v. length v.items ≡ length members.new.items) }
    ensures lent { IfOk result (λ v. AreLent members.new.items v.items) }
    ensures whole { IfOk result (λ v. members_with members.new.items v.items ≡ members.old.items) }
{
    let mut flows = Vec::new(alloc);
    for k in 0..members.len() {
        let flow = members[k].take_flow();
        flows.push(flow)?;
    }
    Ok(flows)
}

/// Puts back what came of each module while its compilation was lent.
fn put_flows(members: &mut Vec<Member>, flows: Vec<Option<Flow>>)
    requires { length flows.items ≡ length members.old.items }
    ensures { members.new.items ≡ members_with members.old.items flows.items }
{
    let mut flows = flows;
    while let Some(flow) = flows.pop() {
        members[flows.len()].put_flow(flow);
    }
}

/// Reads the rest of the input while so many workers compile the bodies of all its modules, from one pool, and judges the modules.
#[tactic(auto, using(crate::proofs::Sources::took_nothing))]
pub fn judge_beside<R: Threads + Wait + Sync, S: Source, G: Gate>(
    rt: &R,
    alloc: Global,
    source: &mut S,
    gate: &G,
    workers: u32,
    streams: Streams,
    buffer: Vec<u8>,
) -> Result<Vec<Member>, ManyStop>
    requires room { 0 < length buffer.items }
    requires paused { (first : Option (List ℕ)) × (before : ℕ)
        × IsPaused first before (S.left source.old) (S.faults source.old) (S.is_open source.old) streams }
    ensures answer { (first : Option (List ℕ)) (before : ℕ)
        → IsPaused first before (S.left source.old) (S.faults source.old) (S.is_open source.old) streams
        → ComesToMany (IsJudged streams.keeps) (nat_lt before (S.faults source.new)) first (S.left source.new) (view result) }
    ensures front { TookFront (S.left source.old) (S.faults source.old) (S.left source.new) (S.faults source.new) }
{
    let Streams {
        alloc: _,
        batch: _,
        keeps: _,
        waits: _,
        reader,
        members,
    } = streams;
    let mut members = members;
    let Ok(flows) = take_flows(alloc, &mut members) else {
        return Err(ManyStop::NoMemory);
    };
    let rest = Rest { reader, flows };
    let pause = Pause { rest, buffer };
    match work_beside(rt, alloc, source, gate, workers, members.as_slice(), pause) {
        Ok(done) => {
            let Done { made, flows } = done;
            put_flows(&mut members, flows);
            match settle_beside(rt, alloc, members, made, workers.saturating_sub(1)) {
                Ok(judged) => Ok(judged),
                Err(_) => Err(ManyStop::NoMemory),
            }
        }
        Err(stop) => Err(stop),
    }
}
