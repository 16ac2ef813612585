//! Cells that are set by one thread and by two.
ghost use Rattle.std.specs.Prelude.{◌≡◌, ◌<◌, length, slice_index};

use result_cells::{CellNote, Cells, Put};
use rv_isa::{Code, Relocations, TrapSites, Words};
use std::alloc::{AllocError, Global};
use std::sync::Arc;
use std::test::Fail;
use std::thread;

fn code(alloc: Global, word: u32) -> Result<Arc<Code, Global>, AllocError> {
    let mut words = Words::new(alloc);
    words.push(word)?;
    Ok(Arc::new(
        alloc,
        Code {
            words,
            relocations: Relocations::from_vec(Vec::new(alloc)),
            traps: TrapSites::from_vec(Vec::new(alloc)),
            need: 1,
        },
    )?)
}

fn is_placed(put: &Put<'_>) -> bool {
    matches!(put, Put::Placed)
}

// Puts a code into a cell, and answers whether it is the one that is held.
fn put(
    cells: &Cells,
    index: u32,
    note: &mut CellNote,
    code: &Arc<Code, Global>,
) -> Result<bool, AllocError>
    requires index { index < length cells.now.names }
    requires cell { note.old.cell ≡ slice_index cells.now.names index }
    ensures { note.new.cell ≡ note.old.cell }
{
    let put = cells.put(index, note, code)?;
    Ok(is_placed(&put))
}

// Whether another note of cell 1 finds this code there.
fn holds(cells: &Cells, note: &mut CellNote, code: &Arc<Code, Global>) -> bool
    requires index { 1 < length cells.now.names }
    requires cell { note.old.cell ≡ slice_index cells.now.names 1 }
{
    let mut other = cells.note(1);
    let same = match cells.get(1, &mut other) {
        Some(held) => held.is_same(code),
        None => false,
    };
    let known = cells.get(1, &mut other).is_some();
    note.compare(other);
    same && known
}

// Whether the first of two codes is held, which is put twice, and stays where the second is put.
fn first_stays(
    cells: &Cells,
    first: &Arc<Code, Global>,
    second: &Arc<Code, Global>,
) -> Result<bool, AllocError>
    requires { 1 < length cells.now.names }
{
    let mut note = cells.note(1);
    let empty = cells.get(1, &mut note).is_none();
    let placed = put(cells, 1, &mut note, first)?;
    let again = put(cells, 1, &mut note, first)?;
    let replaced = put(cells, 1, &mut note, second)?;
    Ok(empty && placed && again && !replaced && holds(cells, &mut note, first))
}

fn put_two(alloc: Global, cells: &Cells) -> Result<bool, AllocError>
    requires { 1 < length cells.now.names }
{
    let first = code(alloc, 7)?;
    let second = code(alloc, 9)?;
    first_stays(cells, &first, &second)
}

#[test]
fn first_code_stays(rt: HostRuntime) -> Result<(), Fail> {
    let cells = Cells::new(rt.alloc(), 2, 3)?;
    assert!(rt; cells.count() == 2);
    assert!(rt; put_two(rt.alloc(), &cells)?);
    Ok(())
}

// Whether this thread's code is the one that is held.
fn offer(alloc: Global, cells: &Cells, word: u32) -> Result<bool, AllocError>
    requires { 0 < length cells.now.names }
{
    let mine = code(alloc, word)?;
    let mut note = cells.note(0);
    put(cells, 0, &mut note, &mine)
}

#[test]
fn one_of_two_is_held(rt: HostRuntime) -> Result<(), Fail> {
    let alloc: Global = rt.alloc();
    let cells = Cells::new(alloc, 1, 2)?;
    let shared = &cells;
    let (first, second) = thread::join(
        &rt,
        move ||
            requires { 0 < length shared.now.names }
        { offer(alloc, shared, 1) },
        move ||
            requires { 0 < length shared.now.names }
        { offer(alloc, shared, 2) },
    );
    assert!(rt; first? != second?);
    Ok(())
}

// Room for three words is taken, while some is left.
fn takes_all(alloc: Global) -> Result<bool, AllocError> {
    let cells = Cells::new(alloc, 2, 3)?;
    let some = cells.take_room(2).is_ok() && cells.exhausted().is_none();
    Ok(some && cells.take_room(1).is_ok() && cells.exhausted().is_some())
}

// Where more is asked for than is left, nothing is left.
fn takes_too_much(alloc: Global) -> Result<bool, AllocError> {
    let cells = Cells::new(alloc, 2, 3)?;
    let none = cells.take_room(u64::MAX).is_err() && cells.exhausted().is_some();
    Ok(none && cells.take_room(1).is_err())
}

#[test]
fn room_is_taken_while_as_much_is_left(rt: HostRuntime) -> Result<(), Fail> {
    assert!(rt; takes_all(rt.alloc())?);
    assert!(rt; takes_too_much(rt.alloc())?);
    Ok(())
}
