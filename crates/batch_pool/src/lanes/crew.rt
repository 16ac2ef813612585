//! Workers for several modules, in threads of their own.
ghost use Rattle.std.specs.Prelude.{◌≡◌, ◌<◌, ◌+◌, ◌⊎◌, List, All, length, vec_len, IfOk, IfErr, IfSome, false};
ghost use Rattle.batch_pool.specs.declared.lanes.lane.Lane.{Lane as Way};
ghost use Rattle.batch_pool.specs.declared.lanes.lane.LaneSeat.{LaneSeat as Seat};
ghost use Rattle.batch_pool.specs.Lanes.{AreSeated, AreApart, AreFresh, AreDesks, Each, IsWorkedMany, GathersIn, HasReadIn, HaveNoRows, HaveParts, HaveRoom};
ghost use Rattle.batch_pool.specs.Crews.{Splits, IsOfCrew};
ghost use Rattle.batch_pool.specs.Hands.{count_in};

use crate::feeder::Feeder;
use crate::hand::{Hand, last_hand};
use crate::lanes::lane::{Desks, Lane, LaneDesk, LaneSeat, Seats, WorkedMany};
use crate::lanes::many::work_many;
use crate::lanes::reading::ReadingMany;
use crate::scope::take_in;
use crate::worked::Worked;
use body_compiler::Rows;
use io_edges::Gate;
use std::alloc::{AllocError, Global};
use std::snapshot::Snapshot;
use std::sync::Wait;
use std::sync::atomic::AtomicU64;
use std::sync::atomic::Ordering::SeqCst;
use std::thread;
use std::thread::{Promise, PromisedHandle, Threads};

/// Lends lanes to threads. Their closures take it as a type parameter: a closure's contract can't speak of references that lie in a
/// struct that the closure captures.
pub trait Lending: Sync {
    /// The lanes.
    ghost all: { Self → List Way };

    /// The lanes.
    fn lanes(&self) -> &[Lane<'_>]
        ensures { result.now ≡ all self.now };
}

/// Lanes that are lent.
#[derive(Drop)]
struct Lent<'a, 'b> {
    lanes: &'a [Lane<'b>],
}

impl<'a, 'b> Lending for Lent<'a, 'b> {
    ghost all = { λ l. l.lanes.now };

    fn lanes(&self) -> &[Lane<'_>] {
        self.lanes
    }
}

/// What a thread promises: what a worker makes on these lanes that began with these seats.
#[derive(Drop)]
pub struct Crew<'a, L> {
    pub lanes: &'a L,
    pub seats: Snapshot<Seats>,
}

impl<'a, L: Lending> Promise<WorkedMany> for Crew<'a, L> {
    ghost use Rattle.batch_pool.specs.Lanes.{IsWorkedMany};

    ghost kept_by = { λ p r. IsWorkedMany (L.all p.lanes.now) p.seats.value.items r.seats.items r.starved };
}

/// Splits a part of the seat at each lane's desk off. Err where memory ran out.
fn split_all(
    alloc: Global,
    lanes: &[Lane<'_>],
    desks: &mut Vec<LaneDesk>,
) -> Result<Vec<LaneSeat>, AllocError>
    requires desks { AreDesks lanes.now desks.old.items }
    requires parts { HaveParts 1 desks.old.items }
    ensures fresh { IfOk result (λ v. AreFresh lanes.now v.items) }
    ensures desks { IfOk result (λ _. AreDesks lanes.now desks.new.items) }
    ensures left { IfOk result (λ _. Each Splits lanes.now desks.old.items desks.new.items) }
{
    let mut parts = Vec::new(alloc);
    for k in 0..lanes.len() {
        let here = &mut desks[k];
        let part = lanes[k].board.split(&mut here.desk.seat);
        parts.push(LaneSeat {
            seat: part,
            rows: Vec::new(alloc),
        })?;
    }
    Ok(parts)
}

/// Takes in what a worker gave back, for each lane at its desk. None where memory ran out.
fn take_in_many(lanes: &[Lane<'_>], desks: &mut Vec<LaneDesk>, worked: WorkedMany) -> Option<()>
    requires desks { AreDesks lanes.now desks.old.items }
    requires room { HaveRoom 1 desks.old.items }
    requires worked { (s : List Seat) × AreFresh lanes.now s × IsWorkedMany lanes.now s worked.seats.items worked.starved }
    ensures desks { IfSome result (λ _. AreDesks lanes.now desks.new.items) }
    ensures gathers { IfSome result (λ _. Each (GathersIn 1) lanes.now desks.old.items desks.new.items) }
{
    let WorkedMany {
        seats: others,
        starved,
    } = worked;
    let mut others = others;
    while let Some(other) = others.pop() {
        let k = others.len();
        let lane = &lanes[k];
        let here = &mut desks[k];
        let worked = Worked {
            seat: other.seat,
            rows: Rows::new(other.rows),
            starved,
        };
        take_in(
            &lane.board,
            lane.context,
            &lane.cells,
            &mut here.desk.seat,
            &mut here.rows,
            worked,
        )?;
    }
    Some(())
}

/// Joins all threads, and takes in what they give back. None where memory ran out.
fn join_all_many<'a, R: Threads, L: Lending>(
    rt: &R,
    lanes: &[Lane<'_>],
    desks: &mut Vec<LaneDesk>,
    handles: Vec<PromisedHandle<WorkedMany, Crew<'a, L>>>,
) -> Option<()>
    requires desks { AreDesks lanes.now desks.old.items }
    requires room { HaveRoom (vec_len handles) desks.old.items }
    requires each { All (λ h. IsOfCrew L.all lanes.now h.promise) handles.items }
    ensures desks { IfSome result (λ _. AreDesks lanes.now desks.new.items) }
    ensures gathers { IfSome result (λ _. Each (GathersIn (vec_len handles.entry)) lanes.now desks.old.items desks.new.items) }
{
    for handle in handles {
        take_in_many(lanes, desks, handle.join(rt))?;
    }
    Some(())
}

/// A worker's thread. Where it was refused, it gives its seats back at once.
fn crew_at<R: Threads + Wait + Sync, G: Gate>(
    rt: &R,
    alloc: Global,
    hand: Hand,
    lanes: &[Lane<'_>],
    seats: Seats,
    gate: &G,
    is_refused: bool,
) -> WorkedMany
    requires seats { AreSeated lanes.now seats.items }
    requires apart { AreApart lanes.now }
    ensures { IsWorkedMany lanes.now seats.items result.seats.items result.starved }
{
    if is_refused {
        return WorkedMany {
            seats,
            starved: false,
        };
    }
    let mut hand = hand;
    work_many(rt, alloc, &mut hand, lanes, seats, gate)
}

/// Works with a hand, if there is one, until no more tickets come, and takes in what that made. None where memory ran out.
fn help_many<R: Threads + Wait + Sync, G: Gate>(
    rt: &R,
    alloc: Global,
    lanes: &[Lane<'_>],
    desks: &mut Vec<LaneDesk>,
    gate: &G,
    own: Option<Hand>,
) -> Option<()>
    requires desks { AreDesks lanes.now desks.old.items }
    requires apart { AreApart lanes.now }
    requires parts { HaveParts (count_in own) desks.old.items }
    ensures desks { IfSome result (λ _. AreDesks lanes.now desks.new.items) }
    ensures gathers { IfSome result (λ _. Each (GathersIn 0) lanes.now desks.old.items desks.new.items) }
{
    let Some(hand) = own else {
        return Some(());
    };
    let Ok(parts) = split_all(alloc, lanes, desks) else {
        return None;
    };
    let worked = crew_at(rt, alloc, hand, lanes, parts, gate, false);
    take_in_many(lanes, desks, worked)?;
    Some(())
}

/// What the thread that reads several modules has once it joined the workers.
#[derive(Drop)]
pub struct JoinedMany<T> {
    /// The reader, after its reading.
    pub reader: T,
    /// The desks, each with the last seat at its board, the tickets of all batches that were handed over there, and what the workers made.
    pub desks: Desks,
}

/// `run_many`, where the lanes are lent.
fn run_lent<R: Threads + Wait + Sync, G: Gate, L: Lending, T: ReadingMany + Drop>(
    rt: &R,
    lanes: &L,
    desks: Desks,
    gate: &G,
    hands: Vec<Hand>,
    feeder: Feeder,
    reading: T,
) -> Result<JoinedMany<T>, T>
    requires desks { AreDesks (L.all lanes.now) desks.items }
    requires rows { HaveNoRows desks.items }
    requires apart { AreApart (L.all lanes.now) }
    requires parts { HaveParts (length hands.items) desks.items }
    requires can { T.can_read reading }
    ensures read { IfOk result (λ j. Each HasReadIn (L.all lanes.now) desks.items j.desks.items) }
    ensures desks { IfOk result (λ j. AreDesks (L.all lanes.now) j.desks.items) }
    ensures made { IfOk result (λ j. T.reads reading j.reader) }
    ensures back { IfErr result (λ r. T.reads reading r ⊎ (r ≡ reading)) }
{
    let alloc = *desks.allocator();
    let refused = AtomicU64::new(u64::MAX);
    let told = &refused;
    thread::scope(
        thread::scope_env(),
        rt,
        |scope| -> Result<JoinedMany<T>, T>
            requires desks { AreDesks (L.all lanes.now) desks.items }
            requires rows { HaveNoRows desks.items }
            requires apart { AreApart (L.all lanes.now) }
            requires parts { HaveParts (length hands.items) desks.items }
            requires can { T.can_read reading }
            ensures read { IfOk result (λ j. Each HasReadIn (L.all lanes.entry.now) desks.items j.desks.items) }
            ensures desks { IfOk result (λ j. AreDesks (L.all lanes.entry.now) j.desks.items) }
            ensures made { IfOk result (λ j. T.reads reading j.reader) }
            ensures back { IfErr result (λ r. T.reads reading r ⊎ (r ≡ reading)) }
        {
            let list = lanes.lanes();
            let mut desks = desks;
            let mut handles: Vec<PromisedHandle<WorkedMany, Crew<'_, L>>> = Vec::new(alloc);
            let mut number = 0u64;
            let mut hands = hands;
            let own = last_hand(&mut hands);
            for hand in hands {
                let Ok(parts) = split_all(alloc, list, &mut desks) else {
                    return Err(reading);
                };
                let promise = Crew {
                    lanes,
                    seats: Snapshot::of(&parts),
                };
                let mine = number;
                match scope.spawn_with(
                    promise,
                    move || -> WorkedMany
                        requires seats { AreSeated (L.all lanes.now) parts.items }
                        requires apart { AreApart (L.all lanes.now) }
                        ensures { IsWorkedMany (L.all lanes.entry.now) parts.items result.seats.items result.starved }
                    {
                        crew_at(
                            rt,
                            alloc,
                            hand,
                            lanes.lanes(),
                            parts,
                            gate,
                            told.load(SeqCst) == mine,
                        )
                    },
                ) {
                    Ok(handle) => {
                        let Ok(()) = handles.push(handle) else {
                            return Err(reading);
                        };
                    }
                    Err(refusal) => {
                        // Why: docs/DECISIONS.md, "A thread that couldn't be started hands its closure back"
                        told.store(mine, SeqCst);
                        let worked = (refusal.value)();
                        let Some(()) = take_in_many(list, &mut desks, worked) else {
                            return Err(reading);
                        };
                    }
                }
                number = number.wrapping_add(1);
            }
            let mut feeder = feeder;
            let mut reader = reading;
            reader.read(list, &mut desks, &mut feeder);
            feeder.close();
            let Some(()) = help_many(rt, alloc, list, &mut desks, gate, own) else {
                return Err(reader);
            };
            let Some(()) = join_all_many(rt, list, &mut desks, handles) else {
                return Err(reader);
            };
            Ok(JoinedMany { reader, desks })
        },
    )
}

/// Reads while workers work off what was handed over and what is handed over meanwhile, of whichever of the lanes' modules it is: a
/// thread for each hand but the last, as far as threads can be started, and this thread, with the last hand, once it has read. Err where
/// memory ran out, with the reader as it is after its reading, or as it was.
pub fn run_many<R: Threads + Wait + Sync, G: Gate, T: ReadingMany + Drop>(
    rt: &R,
    lanes: &[Lane<'_>],
    desks: Desks,
    gate: &G,
    hands: Vec<Hand>,
    feeder: Feeder,
    reading: T,
) -> Result<JoinedMany<T>, T>
    requires desks { AreDesks lanes.now desks.items }
    requires rows { HaveNoRows desks.items }
    requires apart { AreApart lanes.now }
    requires parts { HaveParts (length hands.items) desks.items }
    requires can { T.can_read reading }
    ensures read { IfOk result (λ j. Each HasReadIn lanes.now desks.items j.desks.items) }
    ensures desks { IfOk result (λ j. AreDesks lanes.now j.desks.items) }
    ensures made { IfOk result (λ j. T.reads reading j.reader) }
    ensures back { IfErr result (λ r. T.reads reading r ⊎ (r ≡ reading)) }
{
    let lent = Lent { lanes };
    run_lent(rt, &lent, desks, gate, hands, feeder, reading)
}
