//! Tickets that go through a pool, taken by one hand and by several.
use batch_pool::{Feeder, Hand, Pool, Ticket};
use body_cutter::{Batch, Bodies, BodyBlock};
use std::alloc::{AllocError, Global};
use std::sync::atomic::AtomicU64;
use std::sync::atomic::Ordering::SeqCst;
use std::sync::{Arc, Wait};
use std::test::Fail;
use std::thread;
use std::thread::Threads;

// Puts the ticket of a batch of no bodies, and answers whether it was taken.
fn put(alloc: Global, feeder: &mut Feeder, number: u32) -> Result<bool, AllocError> {
    let batch = Arc::new(
        alloc,
        Batch {
            number,
            start: 7,
            bodies: Bodies::new(BodyBlock::new(alloc)),
        },
    )?;
    Ok(match Ticket::of(0, batch) {
        Some(ticket) => feeder.put(ticket).is_ok(),
        None => false,
    })
}

// Puts so many tickets, and answers whether all were taken.
fn put_all(alloc: Global, feeder: &mut Feeder, count: u32) -> Result<bool, AllocError> {
    for number in 0..count {
        if !put(alloc, feeder, number)? {
            return Ok(false);
        }
    }
    Ok(true)
}

// Puts so many tickets and closes, and answers whether all were taken.
fn feed(alloc: Global, mut feeder: Feeder, count: u32) -> Result<bool, AllocError> {
    let all = put_all(alloc, &mut feeder, count)?;
    feeder.close();
    Ok(all)
}

// Takes until no more come, counting in `taken`, and answers how many there were and the sum of their numbers.
fn take_all<R: Wait>(rt: &R, mut hand: Hand, taken: &AtomicU64) -> (u64, u64) {
    let mut count = 0u64;
    let mut sum = 0u64;
    for _ in rt.forever() {
        match hand.take(rt) {
            Some(ticket) => {
                count = count.wrapping_add(1);
                sum = sum.wrapping_add(u64::from(ticket.number));
                taken.fetch_add(1, SeqCst);
            }
            None => return (count, sum),
        }
    }
    unreachable!()
}

// The same with a thread for each hand.
fn take_together<R: Threads + Wait + Sync>(
    rt: &R,
    hands: Vec<Hand>,
    taken: &AtomicU64,
) -> Result<(u64, u64), AllocError> {
    let mut count = 0u64;
    let mut sum = 0u64;
    let found = thread::map_vec(rt, hands, &|hand| take_all(rt, hand, taken))?;
    for one in found.iter() {
        count = count.wrapping_add(one.0);
        sum = sum.wrapping_add(one.1);
    }
    Ok((count, sum))
}

fn wait_until<R: Wait>(rt: &R, taken: &AtomicU64, count: u64) {
    for _ in rt.forever() {
        if taken.load(SeqCst) == count {
            return;
        }
        thread::yield_now();
    }
}

// Puts so many tickets, each once those before it were taken, and lets the feeder go.
fn feed_slowly<R: Wait>(
    rt: &R,
    alloc: Global,
    mut feeder: Feeder,
    count: u32,
    taken: &AtomicU64,
) -> Result<(), AllocError> {
    for number in 0..count {
        if put(alloc, &mut feeder, number)? {
            feeder.flush();
            wait_until(rt, taken, u64::from(number) + 1);
        }
    }
    Ok(())
}

// Whether one hand takes 100 tickets of a closed pool.
fn takes_all<R: Wait>(rt: &R, alloc: Global) -> Result<bool, AllocError> {
    let (feeder, mut hands) = Pool::new(alloc, 1)?;
    let has_room = feeder.room() >= 1;
    let fed = feed(alloc, feeder, 100)?;
    match hands.pop() {
        Some(hand) => {
            let found = take_all(rt, hand, &AtomicU64::new(0));
            Ok(has_room && fed && found == (100, 4950))
        }
        None => Ok(false),
    }
}

#[test]
fn one_hand_takes_all(rt: HostRuntime) -> Result<(), Fail> {
    assert!(rt; takes_all(&rt, rt.alloc())?);
    Ok(())
}

// Whether these hands take each of 10,000 tickets once.
fn take_once<R: Threads + Wait + Sync>(
    rt: &R,
    alloc: Global,
    feeder: Feeder,
    hands: Vec<Hand>,
) -> Result<bool, AllocError> {
    let taken = AtomicU64::new(0);
    let (fed, found) = thread::join(
        rt,
        || feed(alloc, feeder, 10_000),
        || take_together(rt, hands, &taken),
    );
    Ok(fed? && found? == (10_000, 49_995_000))
}

#[test]
fn eight_hands_take_each_ticket_once(rt: HostRuntime) -> Result<(), Fail> {
    let (feeder, hands) = Pool::new(rt.alloc(), 8)?;
    assert!(rt; take_once(&rt, rt.alloc(), feeder, hands)?);
    Ok(())
}

// Whether the other hand takes 40 tickets while a busy one waits for that.
fn steals_all<R: Threads + Wait + Sync>(rt: &R, busy: Hand, other: Hand) -> bool {
    let taken = AtomicU64::new(0);
    let (left, stolen) = thread::join(
        rt,
        || {
            wait_until(rt, &taken, 40);
            take_all(rt, busy, &taken)
        },
        || take_all(rt, other, &taken),
    );
    left == (0, 0) && stolen.0 == 40
}

// The same of a hand that took the first of 41 tickets.
fn fill_and_steal<R: Threads + Wait + Sync>(
    rt: &R,
    alloc: Global,
    mut feeder: Feeder,
    mut busy: Hand,
    other: Hand,
) -> Result<bool, AllocError> {
    let fed = put_all(alloc, &mut feeder, 41)?;
    let first = busy.take(rt).is_some();
    feeder.close();
    Ok(fed && first && steals_all(rt, busy, other))
}

fn is_stolen_from<R: Threads + Wait + Sync>(rt: &R, alloc: Global) -> Result<bool, AllocError> {
    let (feeder, mut hands) = Pool::new(alloc, 2)?;
    match (hands.pop(), hands.pop()) {
        (Some(other), Some(busy)) => fill_and_steal(rt, alloc, feeder, busy, other),
        _ => Ok(false),
    }
}

#[test]
fn a_busy_hand_is_stolen_from(rt: HostRuntime) -> Result<(), Fail> {
    assert!(rt; is_stolen_from(&rt, rt.alloc())?);
    Ok(())
}

// Whether these hands take 100 tickets, each of which is put once those before it were taken.
fn take_slowly<R: Threads + Wait + Sync>(
    rt: &R,
    alloc: Global,
    feeder: Feeder,
    hands: Vec<Hand>,
) -> Result<bool, AllocError> {
    let taken = AtomicU64::new(0);
    let (fed, found) = thread::join(
        rt,
        || feed_slowly(rt, alloc, feeder, 100, &taken),
        || take_together(rt, hands, &taken),
    );
    Ok(fed.is_ok() && found? == (100, 4950))
}

#[test]
fn parked_hands_are_woken_and_return(rt: HostRuntime) -> Result<(), Fail> {
    let (feeder, hands) = Pool::new(rt.alloc(), 8)?;
    assert!(rt; take_slowly(&rt, rt.alloc(), feeder, hands)?);
    Ok(())
}
