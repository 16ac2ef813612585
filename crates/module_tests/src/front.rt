//! Modules that come in pieces, whose items and errors were worked out by hand.

use section_reader::Front;
use std::alloc::Global;
use std::test::Fail;
use test_rows::bytes_of;
use wasm_defs::{FrontStop, Item, Kind, Refusal};

/// The magic bytes and the version.
const HEADER: &str = "00 61 73 6D 01 00 00 00 ";

/// A module that exports `add`, of two parameters.
const ADD: &str =
    "00 61 73 6D 01 00 00 00 01 07 01 60 02 7F 7F 01 7F 03 02 01 00 07 07 01 03 61 64 64 00 00 0A 09 01 07 00 20 00 20 01 6A 0B";

/// What follows the header of a module, and how its reading ends: where there are two things, the first is how many items come.
const MODULES: &str = "\
05 03 01 00 01 = 1 items, the whole module
# The same name twice.
01 04 01 60 00 00 03 03 02 00 00 07 09 02 01 66 00 00 01 66 00 01 = 4 items, Invalid at byte 26
# Data before the code that is owed.
01 04 01 60 00 00 03 02 01 00 0B 01 00 = 2 items, Malformed at byte 18
01 06 FF FF FF FF 0F 00 = 0 items, Limit at byte 10
01 07 01 60 02 7F 7F 01 7F 03 02 01 00 07 07 01 03 61 64 64 00 00 0A 09 01 07 00 20 00 20 01 6A 0B = 4 items, the whole module
# A custom section, whatever it holds.
00 05 01 61 AA BB CC 01 01 00 = 0 items, the whole module
00 05 02 E2 28 BB CC = 0 items, Malformed at byte 10
01 05 01 60 02 7F = 0 items, Ended at byte 14
# A byte, a type and an index at fault in what is waited for.
07 09 01 05 61 E2 28 A1 61 00 00 = 0 items, Malformed at byte 11
01 07 01 60 03 7F 7B 7F 00 = 0 items, Malformed at byte 14
01 04 01 60 00 00 03 02 01 00 04 04 01 70 00 01 09 0A 01 00 41 00 0B 03 00 80 01 00 = 3 items, Invalid at byte 33
# Bodies: one too short, past the end of its section, too long; a byte after the last one; and one that is too long and cut off.
01 04 01 60 00 00 03 02 01 00 0A 03 01 01 00 = 3 items, the whole module
01 04 01 60 00 00 03 02 01 00 0A 03 01 05 00 = 3 items, the whole module
01 04 01 60 00 00 03 02 01 00 0A 04 01 81 80 40 = 3 items, the whole module
01 04 01 60 00 00 03 02 01 00 0A 05 01 02 00 0B 00 = 3 items, the whole module
01 04 01 60 00 00 03 02 01 00 0A 85 80 40 01 81 80 40 = 3 items, Ended at byte 26
# A name is one field, refused as soon as no more bytes can complete it.
00 03 85 = Malformed at byte 10
00 04 02 E2 = Malformed at byte 10
00 04 03 E2 = Ended at byte 12
# No byte left in the section is malformed; bytes left after the last field are once one came.
01 00 = Malformed at byte 10
01 02 00 = Ended at byte 11
01 02 00 00 = Malformed at byte 11
# A field that the section cuts off stands at its own first byte.
01 02 01 60 00 = Malformed at byte 12
01 03 01 60 80 00 = Malformed at byte 12
# Sections and their order.
01 01 00 01 01 00 = Malformed at byte 11
03 01 00 01 01 00 = Malformed at byte 11
0D 00 = Malformed at byte 8
0B 80 80 80 20 = Limit at byte 9
0B 01 00 0C 01 00 = Malformed at byte 11
0C 01 00 09 01 00 = Malformed at byte 11
# What the tables of 1.0 do not list.
01 05 01 60 01 7B 00 = Malformed at byte 13
01 05 01 60 01 7D 00 = Unsupported at byte 13
02 05 01 00 00 03 00 = Unsupported at byte 13
02 05 01 00 00 04 00 = Malformed at byte 13
05 03 01 03 00 = Malformed at byte 11
# Types have so many parameters and results at most.
01 05 01 60 E9 07 00 = Limit at byte 12
01 05 01 60 00 E9 07 = Limit at byte 13
# Constant expressions.
06 05 01 7F 00 43 00 = Unsupported at byte 13
06 05 01 7F 00 8B 00 = Invalid at byte 13
06 05 01 7F 00 05 00 = Invalid at byte 13
06 05 01 7F 00 0B 00 = Invalid at byte 13
06 05 01 7F 00 06 00 = Malformed at byte 13
06 05 01 7F 00 C4 00 = Invalid at byte 13
06 05 01 7F 00 C5 00 = Malformed at byte 13
06 06 01 7F 00 41 00 42 = Invalid at byte 15
06 06 01 7F 02 41 00 0B = Malformed at byte 12
# Memories and tables.
05 04 01 01 02 01 = Invalid at byte 13
05 04 01 00 81 20 = Limit at byte 12
05 05 01 00 81 80 04 = Limit at byte 12
05 06 01 01 00 81 80 04 = Invalid at byte 13
05 03 02 00 00 = Invalid at byte 10
04 06 01 70 00 A1 8D 06 = Limit at byte 13
0B 05 01 00 41 00 0B = Invalid at byte 11
# The data count, and as many segments.
0C 01 00 = 1 items, the whole module
0C 03 A1 8D 06 = Limit at byte 10
0C 01 02 = 1 items, Ended at byte 11
0C 01 01 0B 01 00 = 1 items, Malformed at byte 13
0C 01 01 0B 04 01 01 01 61 = 2 items, the whole module
# Data segments: one that is active in a memory that it names, in one that isn't there, and one whose form isn't there.
05 03 01 00 01 0B 07 01 02 00 41 00 0B 00 = 2 items, the whole module
05 03 01 00 01 0B 07 01 02 01 41 00 0B 00 = 1 items, Invalid at byte 17
0B 02 01 03 = Malformed at byte 11
# Imports and functions together.
03 03 A1 8D 06 = Limit at byte 10
03 03 A0 8D 06 = Malformed at byte 13
01 03 A1 8D 06 = Limit at byte 10
# An index into nothing.
03 02 01 00 = Invalid at byte 11
08 01 00 = Invalid at byte 10
# No code section is owed where no function is declared.
0A 01 01 = Malformed at byte 10
# The body of a function is owed, before data too.
01 04 01 60 00 00 03 02 01 00 = Ended at byte 18
01 04 01 60 00 00 03 02 01 00 0B 01 00 = Malformed at byte 18
# Exports: a name twice, an index past the last function, a kind that is not there.
01 04 01 60 00 00 03 02 01 00 07 09 02 01 66 00 00 01 66 00 00 = Invalid at byte 25
01 04 01 60 00 00 03 02 01 00 07 05 01 01 66 00 01 = Invalid at byte 24
01 04 01 60 00 00 03 02 01 00 07 05 01 01 66 04 00 = Malformed at byte 23
# Bodies: their number, and their section cut off.
01 04 01 60 00 00 03 02 01 00 0A 01 02 = Malformed at byte 20
01 04 01 60 00 00 03 02 01 00 0A 04 01 02 00 = Ended at byte 23
# The count of an element segment has no limit of its own.
01 04 01 60 00 00 03 02 01 00 04 04 01 70 00 01 09 7F 01 00 41 00 0B FF FF FF FF 0F = Ended at byte 36";

fn refused(offset: u64, kind: Kind) -> Option<FrontStop> {
    Some(FrontStop::Refused(Refusal { offset, kind }))
}

/// Feeds the bytes up to a cut, and then so many at a time, and counts the items.
fn feed_all(
    front: &mut Front,
    bytes: &[u8],
    cut: usize,
    size: usize,
    items: &mut u32,
) -> Result<(), FrontStop> {
    let mut place: usize = 0;
    for _ in 0..400_000 {
        let upto = if place < cut {
            cut
        } else {
            bytes.len().min(place.saturating_add(size))
        };
        let piece = bytes.get(place..upto).unwrap_or(&[]);
        place = place.saturating_add(front.feed(piece)?);
        if front.take_item().is_some() {
            *items = items.saturating_add(1);
        } else if bytes.len() <= place {
            break;
        }
    }
    Ok(())
}

/// How many items a module has, and why it is refused, if it is: its bytes come up to a cut, and then so many at a time.
fn read(alloc: Global, bytes: &[u8], cut: usize, size: usize) -> (u32, Option<FrontStop>) {
    let mut front = Front::new(alloc);
    let mut items: u32 = 0;
    let fed = feed_all(&mut front, bytes, cut, size, &mut items);
    let stop = match (fed, front.end()) {
        (Err(stop), _) => Some(stop),
        (Ok(()), Err(refusal)) => Some(FrontStop::Refused(refusal)),
        (Ok(()), Ok(())) => None,
    };
    (items, stop)
}

/// The same as text.
fn told(alloc: Global, bytes: &[u8], cut: usize, size: usize) -> Result<String, Fail> {
    let (items, stop) = read(alloc, bytes, cut, size);
    Ok(match stop {
        None => format!(in alloc; "{items} items, the whole module")?,
        Some(FrontStop::Refused(Refusal { offset, kind })) => {
            format!(in alloc; "{items} items, {kind:?} at byte {offset}")?
        }
        Some(FrontStop::NoMemory) => format!(in alloc; "out of memory")?,
    })
}

/// Whether a module's reading ends so, wherever its bytes are cut in two, and where they come one by one.
fn ends_so(alloc: Global, bytes: &[u8], want: &str) -> Result<bool, Fail> {
    for cut in 0..=bytes.len() {
        if !told(alloc, bytes, cut, bytes.len())?.ends_with(want) {
            return Ok(false);
        }
    }
    Ok(told(alloc, bytes, 0, 1)?.ends_with(want))
}

#[test]
fn no_cut_changes_an_answer(rt: HostRuntime) -> Result<(), Fail> {
    for line in MODULES.lines() {
        if line.starts_with('#') {
            continue;
        }
        let Some((row, want)) = line.split_once(" = ") else {
            return Err(Fail::new(line));
        };
        let bytes = bytes_of(rt.alloc(), &[HEADER, row])?;
        assert!(rt; ends_so(rt.alloc(), &bytes, want)?, "{line}");
    }
    Ok(())
}

/// Whether the first bytes of a module are read as they should, at once and one by one: it is whole after its header, after its types
/// and after its last body.
fn ends_too_soon(alloc: Global, bytes: &[u8], len: usize) -> Result<bool, Fail> {
    let want = if matches!(len, 8 | 17 | 41) {
        format!(in alloc; "the whole module")?
    } else {
        format!(in alloc; "Ended at byte {len}")?
    };
    let Some(bytes) = bytes.get(..len) else {
        return Ok(false);
    };
    ends_so(alloc, bytes, want.as_str())
}

#[test]
fn bytes_that_end_too_soon_are_refused_at_their_number(rt: HostRuntime) -> Result<(), Fail> {
    let bytes = bytes_of(rt.alloc(), &[ADD])?;
    for len in 0..=bytes.len() {
        assert!(rt; ends_too_soon(rt.alloc(), &bytes, len)?, "{len} bytes");
    }
    Ok(())
}

/// Longer modules: what follows the header, so many zeros, what comes after them, and of how many bytes the pieces are; how the reading
/// ends. A name has 100,000 bytes at most, and a module 67,108,864.
const LONG: &str = "\
00 A3 8D 06 A0 8D 06; 100000; ; 1 = the whole module
00 A3 8D 06 A0 8D 06; 100000; ; 100015 = the whole module
00 A4 8D 06 A1 8D 06; 100001; ; 1 = Limit at byte 12
00 A4 8D 06 A1 8D 06; 100001; ; 100016 = Limit at byte 12
00 A4 8D 06 A1 8D 06; 100000; ; 1 = Ended at byte 100015
00 A4 8D 06 A1 8D 06; 100000; ; 100015 = Ended at byte 100015
00 F3 FF FF 1F; 67108851; ; 65536 = the whole module
00 F3 FF FF 1F; 67108851; ; 67108865 = the whole module
00 F3 FF FF 1F; 67108851; 00; 67108865 = Limit at byte 67108864
00 F3 FF FF 1F; 67108851; 0C; 67108865 = Limit at byte 67108864
00 F3 FF FF 1F; 67108851; 0D; 67108865 = Malformed at byte 67108864";

/// How the reading of a longer module ends.
fn told_of_long(
    alloc: Global,
    begin: &str,
    zeros: usize,
    end: &str,
    size: usize,
) -> Result<String, Fail> {
    let mut bytes = bytes_of(alloc, &[HEADER, begin])?;
    let zeros = vec![in alloc; 0u8; zeros]?;
    bytes.extend_from_slice(&zeros)?;
    let end = bytes_of(alloc, &[end])?;
    bytes.extend_from_slice(&end)?;
    told(alloc, &bytes, 0, size)
}

/// How the reading of a row ends.
fn told_of_row(alloc: Global, row: &str) -> Result<String, Fail> {
    let (begin, rest) = row.split_once("; ").unwrap_or((row, ""));
    let (zeros, rest) = rest.split_once("; ").unwrap_or((rest, ""));
    let (end, size) = rest.split_once("; ").unwrap_or((rest, ""));
    let (zeros, size) = (zeros.parse().unwrap_or(0), size.parse().unwrap_or(0));
    told_of_long(alloc, begin, zeros, end, size)
}

#[test]
fn names_and_modules_have_a_limit(rt: HostRuntime) -> Result<(), Fail> {
    for line in LONG.lines() {
        let (row, want) = line.split_once(" = ").unwrap_or((line, ""));
        let told = told_of_row(rt.alloc(), row)?;
        assert!(rt; told.ends_with(want), "{row}: {told}");
    }
    Ok(())
}

/// Feeds the bytes from an offset on, and takes an item; where it is the bodies, these are skipped. Answers whether they were.
fn take_or_skip(front: &mut Front, bytes: &[u8], place: usize) -> Result<bool, FrontStop> {
    front.feed(bytes.get(place..).unwrap_or(&[]))?;
    match front.take_item() {
        Some(Item::Code { end: 41, .. }) if front.can_skip_to(41) => {
            front.skip_to(41);
            Ok(true)
        }
        _ => Ok(false),
    }
}

/// Whether the bodies are skipped with the fourth item: the module is whole then, and a section of no id is an error.
fn skipped(alloc: Global, bytes: &[u8]) -> Result<String, Fail> {
    let mut front = Front::new(alloc);
    let first = take_or_skip(&mut front, bytes, 0);
    let second = take_or_skip(&mut front, bytes, 17);
    let third = take_or_skip(&mut front, bytes, 21);
    let fourth = take_or_skip(&mut front, bytes, 30);
    let end = front.end();
    let fault = front.feed(&[0x0D]).is_err();
    Ok(format!(in alloc; "{first:?} {second:?} {third:?} {fourth:?} {end:?} {fault}")?)
}

#[test]
fn bodies_are_skipped(rt: HostRuntime) -> Result<(), Fail> {
    let bytes = bytes_of(rt.alloc(), &[ADD])?;
    assert_eq!(rt;
        skipped(rt.alloc(), &bytes)?.as_str(),
        "Ok(false) Ok(false) Ok(false) Ok(true) Ok(()) true"
    );
    Ok(())
}

/// Appends the items of a module, whose bytes come so many at a time, as text.
fn push_items(
    alloc: Global,
    told: &mut String,
    front: &mut Front,
    bytes: &[u8],
    size: usize,
) -> Result<(), Fail> {
    let mut place: usize = 0;
    for _ in 0..20_000 {
        let upto = bytes.len().min(place.saturating_add(size));
        let piece = bytes.get(place..upto).unwrap_or(&[]);
        place = place.saturating_add(front.feed(piece)?);
        if let Some(item) = front.take_item() {
            let text = format!(in alloc; "{item:?} ")?;
            told.push_str(text.as_str())?;
        } else if bytes.len() <= place {
            break;
        }
    }
    let ending = format!(in alloc; "{:?}", front.end())?;
    told.push_str(ending.as_str())?;
    Ok(())
}

/// The items of a module whose bytes come so many at a time, and how it ends, as text.
fn items_of(alloc: Global, bytes: &[u8], size: usize) -> Result<String, Fail> {
    let mut front = Front::new(alloc);
    let mut told = String::new(alloc);
    push_items(alloc, &mut told, &mut front, bytes, size)?;
    Ok(told)
}

/// Appends the same bytes so many times.
fn repeat(bytes: &mut Vec<u8>, unit: &[u8], times: u32) -> Result<(), Fail> {
    for _ in 0..times {
        bytes.extend_from_slice(unit)?;
    }
    Ok(())
}

#[test]
fn items_come_in_order(rt: HostRuntime) -> Result<(), Fail> {
    let alloc = rt.alloc();
    let bytes = bytes_of(alloc, &[ADD])?;
    let want =
        "Signature { form: 11, params: 12, results: 15, ty: FuncType { params: Sequence { elements: [I32, I32] }, results: Sequence { elements: [I32] } } } \
        Function { type_index: (20, 0) } \
        Exported { name: (24, Sequence { elements: [97, 100, 100] }), kind: (28, Function), index: (29, 0) } \
        Code { count: (32, 1), end: 41 } Ok(())";
    assert_eq!(rt; items_of(alloc, &bytes, bytes.len())?.as_str(), want);
    assert_eq!(rt; items_of(alloc, &bytes, 1)?.as_str(), want);
    Ok(())
}

#[test]
fn long_entries_come_byte_by_byte(rt: HostRuntime) -> Result<(), Fail> {
    let alloc = rt.alloc();
    // A type with 1,000 parameters and 1,000 results.
    let mut bytes = bytes_of(alloc, &[HEADER, "01 D6 0F 01 60 E8 07"])?;
    repeat(&mut bytes, &[0x7F], 1000)?;
    bytes.extend_from_slice(&[0xE8, 0x07])?;
    repeat(&mut bytes, &[0x7E], 1000)?;
    // A function of it, a table, and an export whose name has 5,000 bytes: 2,500 characters of two.
    let export = bytes_of(alloc, &["03 02 01 00 04 04 01 70 00 01 07 8D 27 01 88 27"])?;
    bytes.extend_from_slice(&export)?;
    repeat(&mut bytes, &[0xC3, 0xA9], 2500)?;
    // An element segment with 3,000 indices of two bytes.
    let element = bytes_of(alloc, &["00 00 09 F7 2E 01 00 41 00 0B B8 17"])?;
    bytes.extend_from_slice(&element)?;
    repeat(&mut bytes, &[0x80, 0x00], 3000)?;
    let code = bytes_of(alloc, &["0A 04 01 02 00 0B"])?;
    bytes.extend_from_slice(&code)?;
    let whole = items_of(alloc, &bytes, bytes.len())?;
    assert!(rt; whole.len() > 30_000);
    for size in [1, 2, 7, 1000] {
        let pieces = items_of(alloc, &bytes, size)?;
        assert!(rt; pieces == whole, "pieces of {size}");
    }
    Ok(())
}

/// The error of the bytes that came, whose end isn't reported.
fn stop_so_far(front: &mut Front, bytes: &[u8]) -> Option<FrontStop> {
    let mut rest = bytes;
    for _ in 0..100 {
        match front.feed(rest) {
            Ok(taken) => rest = rest.get(taken..)?,
            Err(stop) => return Some(stop),
        }
        let _item = front.take_item()?;
    }
    None
}

/// Why a module is refused by the bytes that came.
fn told_so_far(alloc: Global, bytes: &[u8]) -> Option<FrontStop> {
    let mut front = Front::new(alloc);
    stop_so_far(&mut front, bytes)
}

#[test]
fn faults_are_told_before_more_bytes_come(rt: HostRuntime) -> Result<(), Fail> {
    let alloc = rt.alloc();
    let rows: [(&str, Option<FrontStop>); 3] = [
        ("01 04 02 60 00 00", refused(14, Kind::Malformed)),
        (
            "04 04 01 70 00 00 07 05 05 01 61 01 00",
            refused(21, Kind::Malformed),
        ),
        ("01 05 02 60 00 00", None),
    ];
    for (text, want) in rows {
        let bytes = bytes_of(alloc, &[HEADER, text])?;
        assert_eq!(rt; told_so_far(alloc, &bytes), want, "{text}");
    }
    Ok(())
}

/// What a reader answers whose bytes end, to more bytes and to another end.
fn ended(alloc: Global, bytes: &[u8]) -> Result<String, Fail> {
    let mut front = Front::new(alloc);
    let (fed, end) = (front.feed(bytes), front.end());
    let (more, again) = (front.feed(&[0x60]), front.end());
    Ok(format!(in alloc; "{fed:?} {end:?} {more:?} {again:?}")?)
}

#[test]
fn a_refusal_at_the_end_is_for_good(rt: HostRuntime) -> Result<(), Fail> {
    let bytes = bytes_of(rt.alloc(), &[HEADER, "01 04 01"])?;
    assert_eq!(rt;
        ended(rt.alloc(), &bytes)?.as_str(),
        "Ok(11) Err(Refusal { offset: 11, kind: Ended }) \
        Err(Refused(Refusal { offset: 11, kind: Ended })) Err(Refusal { offset: 11, kind: Ended })"
    );
    Ok(())
}
