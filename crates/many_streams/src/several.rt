//! What several modules come to.

ghost use Rattle.std.specs.Prelude.{◌≡◌, ◌<◌, ◌^◌, ◌-◌, ℕ, Bool, List, true, false, nat_lt, IfOk};
ghost use Rattle.io_edges.specs.Streams.{TookFront};
ghost use Rattle.many_streams.specs.Many.{AreEach, ComesToMany, AnswersMany, ChecksMany, view};
ghost use Rattle.many_streams.specs.Members.{IsJudged, IsEach, IsEachChecked};

use crate::alone::{Front, read_front};
use crate::judging::{judge_beside, judge_ended};
use crate::member::{Each, EachChecked, Member};
use crate::streams::ManyStop;
use io_edges::{Gate, Source};
use module_stream::Settings;
use std::alloc::{AllocError, Global};
use std::sync::Wait;
use std::thread::Threads;

/// What a module that has ended comes to.
trait Comes: Drop {
    /// Whether its codes are kept.
    ghost KEEPS: { Bool };

    /// What the bytes of a module come to.
    ghost comes: { List ℕ → Self → Type 0 };

    /// Whether its codes are kept.
    const KEEPS: bool;

    /// What a module came to.
    fn of(member: Member) -> Self
        requires { (came : List ℕ) × IsJudged KEEPS came member }
        ensures { (came : List ℕ) → IsJudged KEEPS came member → comes came result };
}

impl Comes for Each {
    ghost KEEPS = { true };

    ghost comes = { IsEach };

    const KEEPS: bool = true;

    fn of(member: Member) -> Each {
        member.into_each()
    }
}

impl Comes for EachChecked {
    ghost KEEPS = { false };

    ghost comes = { IsEachChecked };

    const KEEPS: bool = false;

    fn of(member: Member) -> EachChecked {
        member.into_checked()
    }
}

/// What each module came to.
fn each_of<E: Comes>(alloc: Global, members: Vec<Member>) -> Result<Vec<E>, AllocError>
    requires { (list : List (List ℕ)) × AreEach (IsJudged E.KEEPS) list members.items }
    ensures { IfOk result (λ v. (list : List (List ℕ)) → AreEach (IsJudged E.KEEPS) list members.items → AreEach E.comes list v.items) }
{
    let mut each = Vec::new(alloc);
    for member in members {
        each.push(E::of(member))?;
    }
    Ok(each)
}

/// Compiles the modules whose bytes the source gives in frames, each by itself, and judges them. Their codes are kept or only counted. Where
/// there are workers, bodies are kept until each module has reached its own, and workers compile them while the rest of the input is read.
fn judge_many<R: Threads + Wait + Sync, S: Source, G: Gate>(
    rt: &R,
    alloc: Global,
    source: &mut S,
    gate: &G,
    settings: Settings,
    keeps: bool,
) -> Result<Vec<Member>, ManyStop>
    requires faults { S.faults source.old < 2 ^ 64 - 1 }
    requires open { S.is_open source.old ≡ true }
    ensures answer { ComesToMany (IsJudged keeps) (nat_lt (S.faults source.old) (S.faults source.new)) (S.left source.old) (S.left source.new) (view result) }
    ensures front { TookFront (S.left source.old) (S.faults source.old) (S.left source.new) (S.faults source.new) }
{
    let workers = settings.workers;
    match read_front(alloc, source, settings.batch, keeps, workers > 0) {
        Ok(Front::Ended(members)) => match judge_ended(alloc, members) {
            Ok(judged) => Ok(judged),
            Err(_) => Err(ManyStop::NoMemory),
        },
        Ok(Front::Paused(streams, buffer)) => {
            judge_beside(rt, alloc, source, gate, workers, streams, buffer)
        }
        Err(stop) => Err(stop),
    }
}

/// What each of the modules comes to whose bytes the source gives in frames.
fn come_to<R: Threads + Wait + Sync, S: Source, G: Gate, E: Comes>(
    rt: &R,
    alloc: Global,
    source: &mut S,
    gate: &G,
    settings: Settings,
) -> Result<Vec<E>, ManyStop>
    requires faults { S.faults source.old < 2 ^ 64 - 1 }
    requires open { S.is_open source.old ≡ true }
    ensures answer { ComesToMany E.comes (nat_lt (S.faults source.old) (S.faults source.new)) (S.left source.old) (S.left source.new) (view result) }
    ensures front { TookFront (S.left source.old) (S.faults source.old) (S.left source.new) (S.faults source.new) }
{
    match judge_many(rt, alloc, source, gate, settings, E::KEEPS) {
        Ok(members) => match each_of(alloc, members) {
            Ok(each) => Ok(each),
            Err(_) => Err(ManyStop::NoMemory),
        },
        Err(stop) => Err(stop),
    }
}

/// Compiles the modules whose bytes the source gives in frames, each by itself: its one image, or its error of least offset. The input is
/// read to its end, to the source's error, or to where it is no frames.
///
/// With `settings.workers` bodies are kept until each module has reached its code section, has ended or is refused; then those of all
/// modules are compiled by so many threads, from one pool, while the rest of the input is read. Without them all of it is done on the
/// caller's thread.
pub fn many<R: Threads + Wait + Sync, S: Source, G: Gate>(
    rt: &R,
    alloc: Global,
    source: &mut S,
    gate: &G,
    settings: Settings,
) -> Result<Vec<Each>, ManyStop>
    requires faults { S.faults source.old < 2 ^ 64 - 1 }
    requires open { S.is_open source.old ≡ true }
    ensures answer { AnswersMany (nat_lt (S.faults source.old) (S.faults source.new)) (S.left source.old) (S.left source.new) (view result) }
    ensures front { TookFront (S.left source.old) (S.faults source.old) (S.left source.new) (S.faults source.new) }
{
    come_to(rt, alloc, source, gate, settings)
}

/// Validates the modules whose bytes the source gives in frames, each by itself: how many functions it declares and how many bytes it
/// has, or its error of least offset.
///
/// It validates and compiles as `many` does, and keeps no code: of each module it keeps what that declares outside its bodies, and
/// nothing of one whose error is known.
pub fn check_many<R: Threads + Wait + Sync, S: Source, G: Gate>(
    rt: &R,
    alloc: Global,
    source: &mut S,
    gate: &G,
    settings: Settings,
) -> Result<Vec<EachChecked>, ManyStop>
    requires faults { S.faults source.old < 2 ^ 64 - 1 }
    requires open { S.is_open source.old ≡ true }
    ensures answer { ChecksMany (nat_lt (S.faults source.old) (S.faults source.new)) (S.left source.old) (S.left source.new) (view result) }
    ensures front { TookFront (S.left source.old) (S.faults source.old) (S.left source.new) (S.faults source.new) }
{
    come_to(rt, alloc, source, gate, settings)
}
