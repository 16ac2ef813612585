//! Runs on a board, by one thread and by eight.
ghost use Rattle.std.specs.Prelude.{◌≡◌, ◌^◌, ◌<◌, ◌≤◌, length};
ghost use Rattle.std.specs.Thread.{IsSync};
ghost use Rattle.cancel_drain.specs.Views.{first_view};

use cancel_drain::{Board, BoardSeat, Claim, Closed, Drained, States};
use std::test::Fail;
use std::thread;
use std::thread::Threads;
use wasm_defs::{Kind, Refusal};

const FAULT: Refusal = Refusal {
    offset: 25,
    kind: Kind::Invalid,
};

// Runs batch 0, which has an error, and answers whether it is seen then, and none was before.
fn run_into_fault(board: &Board, seat: &mut BoardSeat) -> bool
    requires table { seat.old.table ≡ board.now.table }
    requires room { 3 ≤ board.now.functions }
    ensures table { seat.new.table ≡ seat.old.table }
    ensures parts { seat.new.view.parts ≡ seat.old.view.parts }
{
    let before = board.look(seat);
    let drained = board.drain(seat, 1, 30);
    if board.claim(seat, 0, 20) == Claim::Won {
        board.report(seat, FAULT);
        board.finish(seat, 0, 20);
    }
    let after = board.look(seat);
    before == u64::MAX && drained == Drained::NotBehind && after == 203
}

// Whether batch 0 can't be claimed again, and batch 1 is drained.
fn is_behind(board: &Board, seat: &mut BoardSeat) -> bool
    requires table { seat.old.table ≡ board.now.table }
    requires room { 3 ≤ board.now.functions }
    ensures table { seat.new.table ≡ seat.old.table }
    ensures parts { seat.new.view.parts ≡ seat.old.view.parts }
{
    let claimed = board.claim(seat, 0, 20);
    let drained = board.drain(seat, 1, 30);
    claimed == Claim::Lost && drained == Drained::Yes
}

// Whether the error is the least, and the words are those of a batch that is done, one that is drained, and one that never waited.
fn is_drained(closed: &Closed) -> bool
    requires { 3 ≤ length closed.now.states }
{
    let states = &closed.states;
    let words = states.word(0) == 163 && states.word(1) == 244 && states.word(2) == 0;
    words && closed.least == Some(FAULT)
}

#[test]
fn batches_behind_a_fault_are_drained(rt: HostRuntime) -> Result<(), Fail> {
    let (board, mut seat) = Board::new(rt.alloc(), 3, 1)?;
    board.publish(&mut seat, 0, 20);
    board.publish(&mut seat, 1, 30);
    assert!(rt; run_into_fault(&board, &mut seat));
    assert!(rt; is_behind(&board, &mut seat));
    assert!(rt; seat.parts() == 1 && board.functions() == 3);
    let closed = board.close(seat);
    assert!(rt; is_drained(&closed));
    Ok(())
}

const BATCHES: u32 = 10_000;

// The seats of a board for eight threads.
const SEATS: u64 = 8;

// Publishes all batches. Batch `number` starts at `number + 1`.
fn publish_all(board: &Board, seat: &mut BoardSeat)
    requires table { seat.old.table ≡ board.now.table }
    requires room { 10000 ≤ board.now.functions }
    requires view { seat.old.view ≡ first_view 8 }
    ensures table { seat.new.table ≡ seat.old.table }
    ensures parts { seat.new.view.parts ≡ 8 }
{
    for number in 0..BATCHES {
        board.publish(seat, number, u64::from(number) + 1);
    }
}

// Works the batches off, forwards or backwards: drains what comes after an error, and runs the rest. It counts those that it ran.
fn work_off(board: &Board, mut seat: BoardSeat, backwards: bool, faulty: u32) -> (BoardSeat, u32)
    requires table { seat.table ≡ board.now.table }
    requires room { 10000 ≤ board.now.functions }
    ensures table { result.0.table ≡ seat.table }
    ensures parts { result.0.view.parts ≡ seat.view.parts }
{
    let mut ran = 0u32;
    for place in 0..BATCHES {
        let number = if backwards {
            BATCHES - 1 - place
        } else {
            place
        };
        if run(board, &mut seat, number, faulty) {
            ran = ran.wrapping_add(1);
        }
    }
    (seat, ran)
}

// Drains or runs a batch, and answers whether it ran.
fn run(board: &Board, seat: &mut BoardSeat, number: u32, faulty: u32) -> bool
    requires table { seat.old.table ≡ board.now.table }
    requires number { number < board.now.functions }
    ensures table { seat.new.table ≡ seat.old.table }
    ensures parts { seat.new.view.parts ≡ seat.old.view.parts }
{
    let start = u64::from(number) + 1;
    let _ = board.look(seat);
    if board.drain(seat, number, start) != Drained::NotBehind {
        return false;
    }
    if board.claim(seat, number, start) == Claim::Lost {
        return false;
    }
    if number == faulty {
        board.report(
            seat,
            Refusal {
                offset: start,
                kind: Kind::Invalid,
            },
        );
    }
    board.finish(seat, number, start);
    true
}

// The same by this thread and so many others. Every other one goes backwards.
fn work_together<R: Threads + Sync>(
    rt: &R,
    board: &Board,
    mut seat: BoardSeat,
    others: u32,
    faulty: u32,
) -> (BoardSeat, u32)
    requires table { seat.table ≡ board.now.table }
    requires room { 10000 ≤ board.now.functions }
    requires parts { (others < seat.view.parts) × (seat.view.parts < 2 ^ 32) }
    ensures table { result.0.table ≡ seat.table }
    ensures parts { result.0.view.parts ≡ seat.view.parts }
{
    if others == 0 {
        return work_off(board, seat, false, faulty);
    }
    let fewer = others - 1;
    let other = board.split(&mut seat);
    let ((other, some), (mut seat, more)) = thread::join(
        rt,
        move || -> (BoardSeat, u32)
            requires table { other.table ≡ board.now.table }
            requires room { 10000 ≤ board.now.functions }
            ensures table { result.0.table ≡ other.table }
            ensures parts { result.0.view.parts ≡ other.view.parts }
        { work_off(board, other, others % 2 == 1, faulty) },
        move || -> (BoardSeat, u32)
            requires sync { IsSync R.row }
            requires table { seat.table ≡ board.now.table }
            requires room { 10000 ≤ board.now.functions }
            requires parts { (fewer < seat.view.parts) × (seat.view.parts < 2 ^ 32) }
            ensures table { result.0.table ≡ seat.table }
            ensures parts { result.0.view.parts ≡ seat.view.parts }
        { work_together(rt, board, seat, fewer, faulty) },
    );
    board.join(&mut seat, other);
    (seat, some.wrapping_add(more))
}

// How many batches have this state, of those up to `end`.
fn count(states: &States, end: u32, state: u64) -> u32
    requires end { end ≤ length states.now }
    requires state { state < 8 }
    ensures { result ≤ end }
{
    let mut count = 0;
    for number in 0..end {
        if states.word(number) == 8 * (u64::from(number) + 1) + state {
            count += 1;
        }
    }
    count
}

#[test]
fn each_batch_is_done_once(rt: HostRuntime) -> Result<(), Fail> {
    let (board, mut seat) = Board::new(rt.alloc(), BATCHES, SEATS)?;
    publish_all(&board, &mut seat);
    let (seat, ran) = work_together(&rt, &board, seat, 7, BATCHES);
    assert!(rt; ran == BATCHES);
    let closed = board.close(seat);
    assert!(rt; closed.least.is_none());
    assert!(rt; count(&closed.states, BATCHES, 3) == BATCHES);
    Ok(())
}

// Whether all batches up to that with the error are done, and each after it is done or drained, where so many were run.
fn is_split_at_fault(closed: &Closed, ran: u32) -> bool
    requires { 10000 ≤ length closed.now.states }
{
    let least = Refusal {
        offset: 5_001,
        kind: Kind::Invalid,
    };
    let done = count(&closed.states, BATCHES, 3);
    let drained = count(&closed.states, BATCHES, 4);
    closed.least == Some(least)
        && count(&closed.states, 5_001, 3) == 5_001
        && done == ran
        && done.wrapping_add(drained) == BATCHES
}

#[test]
fn what_is_drained_lies_behind_the_fault(rt: HostRuntime) -> Result<(), Fail> {
    let (board, mut seat) = Board::new(rt.alloc(), BATCHES, SEATS)?;
    publish_all(&board, &mut seat);
    let (seat, ran) = work_together(&rt, &board, seat, 7, 5_000);
    let closed = board.close(seat);
    assert!(rt; is_split_at_fault(&closed, ran));
    Ok(())
}
