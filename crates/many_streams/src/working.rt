//! Workers compile the bodies of modules, all from one pool, while the rest of the input is read.

ghost use Rattle.std.specs.Prelude.{◌≡◌, ◌<◌, ◌+◌, ℕ, Bool, [], List, Option, All, length, IfOk, IfSome};
ghost use Rattle.io_edges.specs.Streams.{TookFront};
ghost use Rattle.batch_pool.specs.Lanes.{IsDeskOf};
ghost use Rattle.body_compiler.specs.BatchRows.{IsRowIf};
ghost use Rattle.many_streams.specs.declared.member.Member.TheVariants as state;
ghost use Rattle.many_streams.specs.Rests.{IsArriving, HasArrived};
ghost use Rattle.many_streams.specs.Workers.{AreRead, AreOpened, AreMade, IsRead, ComesBeside};

use crate::flow::Flow;
use crate::member::{Member, Part};
use crate::rest::{Pause, Rest, RestReader};
use crate::streams::ManyStop;
use batch_pool::{
    BatchCompiler, Desk, Desks, Lane, LaneDesk, Pool, by_number, keep_freed, run_many, settle,
    workers_for,
};
use body_compiler::Row;
use cancel_drain::Board;
use io_edges::{Gate, Source};
use module_stream::Compilation;
use result_cells::Cells;
use std::alloc::{AllocError, Global};
use std::sync::Wait;
use std::thread::Threads;
use wasm_defs::MAX_TEXT;

/// What workers made of a module's bodies.
#[derive(Drop)]
pub struct Made {
    /// The cells of the functions, where codes are kept.
    pub cells: Cells,
    /// The rows in the order of the batches that were kept, where they are at hand.
    pub rows: Vec<Option<Row>>,
}

impl Made {
    /// No row is at hand. Err where memory ran out.
    fn nothing(alloc: Global) -> Result<Made, AllocError>
        ensures { IfOk result (λ m. m.rows.items ≡ []) }
    {
        let cells = Cells::new(alloc, 0, 0)?;
        Ok(Made {
            cells,
            rows: Vec::new(alloc),
        })
    }
}

/// The lanes of open modules, in the modules' order, each with a desk at its board.
#[derive(Drop)]
struct Work<'a> {
    lanes: Vec<Lane<'a>>,
    desks: Desks,
}

/// The lane of an open module, with a desk.
struct Opened<'a> {
    lane: Lane<'a>,
    desk: LaneDesk,
}

/// A module that is open.
fn open_part(member: &Member) -> Option<&Part>
    ensures { IfSome result (λ r. member.now ≡ state.Open r.now) }
{
    match member {
        Member::Open(part) => Some(part),
        Member::Image(_) | Member::Valid(_) | Member::Refused(_) => None,
    }
}

/// A lane of a module, and a desk at its board, where nothing was handed over. Err where memory ran out.
fn open_lane<'a>(
    alloc: Global,
    workers: u32,
    module: u32,
    compilation: &'a Compilation,
) -> Result<Opened<'a>, AllocError>
    ensures module { IfOk result (λ o. o.lane.module ≡ «module») }
    ensures context { IfOk result (λ o. o.lane.context.now ≡ compilation.now.spaces) }
    ensures parts { IfOk result (λ o. (o.lane.board.seats ≡ workers + 1) × (o.desk.desk.seat.view.parts ≡ workers + 1)) }
    ensures desk { IfOk result (λ o. IsDeskOf o.lane o.desk × (o.desk.rows.items ≡ [])) }
{
    let context = compilation.context();
    let functions = context.type_indices().len().min(u32::MAX as usize) as u32;
    let stored = if compilation.keeps_codes() {
        functions
    } else {
        0
    };
    // Codes that are linked have no more instruction words together than a text may have.
    let cells = Cells::new(alloc, stored, u64::from(MAX_TEXT) / 4)?;
    let (board, seat) = Board::new(alloc, functions, u64::from(workers) + 1)?;
    let desk = Desk::new(alloc, module, &board, context, seat);
    Ok(Opened {
        lane: Lane {
            module,
            board,
            cells,
            context,
        },
        desk: LaneDesk {
            desk,
            rows: Vec::new(alloc),
        },
    })
}

/// A lane of the next module, if it is open. Err where memory ran out.
fn open_next<'a>(
    alloc: Global,
    workers: u32,
    members: &'a [Member],
    module: u32,
    work: &mut Work<'a>,
) -> Result<(), AllocError>
    requires module { «module» < length members.now }
    requires opened { AreOpened workers members.now «module» work.old.lanes.items work.old.desks.items }
    ensures { IfOk result (λ _. AreOpened workers members.now («module» + 1) work.new.lanes.items work.new.desks.items) }
{
    let k = module as usize;
    let member = &members[k];
    let Some(part) = open_part(member) else {
        return Ok(());
    };
    let opened = open_lane(alloc, workers, module, &part.compilation)?;
    let Opened { lane, desk } = opened;
    work.lanes.push(lane)?;
    work.desks.push(desk)?;
    Ok(())
}

/// A lane of each open module. Err where memory ran out.
fn open_all<'a>(alloc: Global, workers: u32, members: &'a [Member]) -> Result<Work<'a>, AllocError>
    ensures { IfOk result (λ w. (count : ℕ) × AreOpened workers members.now count w.lanes.items w.desks.items) }
{
    let mut work = Work {
        lanes: Vec::new(alloc),
        desks: Vec::new(alloc),
    };
    let count = members.len().min(u32::MAX as usize) as u32;
    for number in 0..count {
        open_next(alloc, workers, members, number, &mut work)?;
    }
    Ok(work)
}

/// Compiles what no worker did of a module's batches. Err where memory ran out.
fn settle_lane<G: Gate>(
    alloc: Global,
    gate: &G,
    lane: Lane<'_>,
    desk: LaneDesk,
) -> Result<Made, AllocError>
    requires { IsRead lane desk }
    ensures { IfOk result (λ m. All (IsRowIf lane.entry.context.now m.cells) m.rows.items) }
{
    let Lane {
        module: _,
        board,
        cells,
        context,
    } = lane;
    let LaneDesk { desk, rows } = desk;
    let Desk {
        module: _,
        seat,
        kept,
        last: _,
    } = desk;
    let compiler = BatchCompiler {
        alloc,
        context,
        cells: &cells,
        gate,
    };
    let count = kept.len();
    let Some(settled) = settle(board, seat, &compiler, rows, kept) else {
        return Err(AllocError);
    };
    let rows = by_number(alloc, context, &cells, settled.rows, count)?;
    Ok(Made { cells, rows })
}

/// For each module that nothing was made of its bodies. Err where memory ran out.
pub fn nothing_made(alloc: Global, members: &[Member]) -> Result<Vec<Made>, AllocError>
    ensures { IfOk result (λ v. AreMade members.now v.items) }
{
    let mut made = Vec::new(alloc);
    for _ in 0..members.len() {
        let one = Made::nothing(alloc)?;
        made.push(one)?;
    }
    Ok(made)
}

/// Compiles what no worker did of the batches of each lane's module. Err where memory ran out.
fn settle_all<G: Gate>(
    alloc: Global,
    gate: &G,
    members: &[Member],
    work: Work<'_>,
) -> Result<Vec<Made>, AllocError>
    requires { AreRead members.now work.lanes.items work.desks.items }
    ensures { IfOk result (λ v. AreMade members.now v.items) }
{
    let Work {
        mut lanes,
        mut desks,
    } = work;
    let mut made = nothing_made(alloc, members)?;
    while let Some(lane) = lanes.pop() {
        let Some(desk) = desks.pop() else {
            return Err(AllocError);
        };
        let module = lane.module as usize;
        let one = settle_lane(alloc, gate, lane, desk)?;
        made[module] = one;
    }
    Ok(made)
}

/// What was read, and what is to be settled.
#[derive(Drop)]
struct Unsettled<'a> {
    work: Work<'a>,
    rest: Rest,
    /// How the reading ended.
    read: Result<(), ManyStop>,
}

/// Reads the rest of the input while so many workers, as far as threads can be started, compile the bodies of open modules. None where
/// memory ran out.
#[tactic(auto, using(crate::proofs::Sources::took_nothing))]
fn read_in_scope<'a, R: Threads + Wait + Sync, S: Source, G: Gate>(
    rt: &R,
    alloc: Global,
    source: &mut S,
    gate: &G,
    workers: u32,
    members: &'a [Member],
    pause: Pause,
) -> Option<Unsettled<'a>>
    requires room { 0 < length pause.buffer.items }
    requires arrives { (first : Option (List ℕ)) × (before : ℕ) × (keeps : Bool)
        × IsArriving first before (S.left source.old) (S.faults source.old) (S.is_open source.old) keeps members.now pause.rest }
    ensures read { IfSome result (λ u. AreRead members.now u.work.lanes.items u.work.desks.items) }
    ensures arrived { IfSome result (λ u. (first : Option (List ℕ)) (before : ℕ) (keeps : Bool)
        → IsArriving first before (S.left source.old) (S.faults source.old) (S.is_open source.old) keeps members.now pause.rest
        → HasArrived first before (S.left source.new) (S.faults source.new) keeps members.now u.read u.rest) }
    ensures front { TookFront (S.left source.old) (S.faults source.old) (S.left source.new) (S.faults source.new) }
{
    let Ok((feeder, hands)) = Pool::new(alloc, workers) else {
        return None;
    };
    let Ok(work) = open_all(alloc, workers, members) else {
        return None;
    };
    let Work { lanes, desks } = work;
    let reader = RestReader::new(source, pause);
    match run_many(rt, lanes.as_slice(), desks, gate, hands, feeder, reader) {
        Ok(joined) => {
            let desks = joined.desks;
            let reader = joined.reader;
            let pause = reader.pause;
            let read = reader.read;
            let _source = reader.source;
            let rest = pause.rest;
            Some(Unsettled {
                work: Work { lanes, desks },
                rest,
                read,
            })
        }
        Err(reader) => {
            let _pause = reader.pause;
            let _read = reader.read;
            let _source = reader.source;
            None
        }
    }
}

/// What was made of modules while the rest of the input was read.
#[derive(Drop)]
pub struct Done {
    /// For each module what workers made of its bodies.
    pub made: Vec<Made>,
    /// What came of each module.
    pub flows: Vec<Option<Flow>>,
}

/// Reads the rest of the input while so many workers compile the bodies of its modules, from one pool, and does what these left over.
pub fn work_beside<R: Threads + Wait + Sync, S: Source, G: Gate>(
    rt: &R,
    alloc: Global,
    source: &mut S,
    gate: &G,
    workers: u32,
    members: &[Member],
    pause: Pause,
) -> Result<Done, ManyStop>
    requires room { 0 < length pause.buffer.items }
    requires arrives { (first : Option (List ℕ)) × (before : ℕ) × (keeps : Bool)
        × IsArriving first before (S.left source.old) (S.faults source.old) (S.is_open source.old) keeps members.now pause.rest }
    ensures made { IfOk result (λ d. AreMade members.now d.made.items) }
    ensures comes { (first : Option (List ℕ)) (before : ℕ) (keeps : Bool)
        → IsArriving first before (S.left source.old) (S.faults source.old) (S.is_open source.old) keeps members.now pause.rest
        → ComesBeside first before (S.left source.new) (S.faults source.new) keeps members.now result }
    ensures front { TookFront (S.left source.old) (S.faults source.old) (S.left source.new) (S.faults source.new) }
{
    let workers = workers_for(rt, workers);
    keep_freed(alloc);
    let Some(unsettled) = read_in_scope(rt, alloc, source, gate, workers, members, pause) else {
        return Err(ManyStop::NoMemory);
    };
    let Unsettled { work, rest, read } = unsettled;
    match read {
        Ok(()) => {}
        Err(stop) => return Err(stop),
    }
    let Rest { reader: _, flows } = rest;
    match settle_all(alloc, gate, members, work) {
        Ok(made) => Ok(Done { made, flows }),
        Err(_) => Err(ManyStop::NoMemory),
    }
}
