//! Inputs of several modules, and where they have an error.
ghost use Rattle.std.specs.Prelude.{◌<◌};

use many_streams::{FrameReader, MAX_MODULES};
use std::alloc::{AllocError, Global};
use std::test::Fail;

/// The offset of an input's error, where it is read in pieces of so many bytes; none where it is frames.
fn error_of(bytes: &[u8], size: usize) -> Option<u64>
    requires { 0 < size }
{
    let mut reader = FrameReader::new();
    let mut rest = bytes;
    while !rest.is_empty() {
        match reader.take(&rest[..size.min(rest.len())]) {
            Ok(taken) => rest = &rest[taken.byte_count()..],
            Err(at) => return Some(at),
        }
    }
    reader.end().err()
}

/// Two modules: the one with index 1 has the bytes 7 and 8, the other one has 9, between them.
const TWO: [u8; 47] = [
    2, 0, 0, 0, //
    1, 0, 0, 0, 1, 0, 0, 0, 7, //
    0, 0, 0, 0, 1, 0, 0, 0, 9, //
    1, 0, 0, 0, 1, 0, 0, 0, 8, //
    1, 0, 0, 0, 0, 0, 0, 0, //
    0, 0, 0, 0, 0, 0, 0, 0,
];

#[test]
fn each_prefix_is_cut_off(rt: HostRuntime) -> Result<(), Fail> {
    for size in [1, 3, 47] {
        assert_eq!(rt; error_of(&TWO, size), None);
        for len in 0..47 {
            assert_eq!(rt;
                error_of(&TWO[..len], size),
                Some(len as u64),
                "of {len} bytes"
            );
        }
    }
    Ok(())
}

/// Inputs, each with the offset of its error.
const ROWS: [(&[u8], u64); 12] = [
    // no module, 65 modules, 2^32 - 1 modules
    (&[0, 0, 0, 0], 0),
    (&[65, 0, 0, 0], 0),
    (&[255, 255, 255, 255], 0),
    // an index of no module
    (&[2, 0, 0, 0, 2, 0, 0, 0], 4),
    (&[64, 0, 0, 0, 64, 0, 0, 0, 9], 4),
    (&[1, 0, 0, 0, 0, 0, 0, 1], 4),
    // an index of a module that has ended
    (&[2, 0, 0, 0, 0, 0, 0, 0, 0, 0, 0, 0, 0, 0, 0, 0], 12),
    (
        &[
            2, 0, 0, 0, 1, 0, 0, 0, 0, 0, 0, 0, 1, 0, 0, 0, 1, 0, 0, 0, 5,
        ],
        12,
    ),
    // a byte after the last end
    (&[1, 0, 0, 0, 0, 0, 0, 0, 0, 0, 0, 0, 0], 12),
    (&[1, 0, 0, 0, 0, 0, 0, 0, 0, 0, 0, 0, 9, 9, 9, 9, 9], 12),
    // a chunk of 2^32 - 1 bytes that has one
    (&[1, 0, 0, 0, 0, 0, 0, 0, 255, 255, 255, 255, 7], 13),
    // a chunk of one byte, and then no end
    (&[1, 0, 0, 0, 0, 0, 0, 0, 1, 0, 0, 0, 7], 13),
];

#[test]
fn errors_have_offsets(rt: HostRuntime) -> Result<(), Fail> {
    for size in [1, 5, 64] {
        for (bytes, at) in ROWS {
            assert_eq!(rt; error_of(bytes, size), Some(at));
        }
    }
    Ok(())
}

/// The ends of as many modules as there may be, but that of the one with index 0.
fn ends(alloc: Global) -> Result<Vec<u8>, AllocError> {
    let mut bytes = vec![in alloc; 64u8, 0, 0, 0]?;
    for index in 1..MAX_MODULES {
        bytes.extend_from_slice(&index.to_le_bytes())?;
        bytes.extend_from_slice(&[0; 4])?;
    }
    Ok(bytes)
}

/// The same with that one's end, which comes last.
fn all_ends(alloc: Global) -> Result<Vec<u8>, AllocError> {
    let mut bytes = ends(alloc)?;
    bytes.extend_from_slice(&[0; 8])?;
    Ok(bytes)
}

#[test]
fn modules_that_never_begin(rt: HostRuntime) -> Result<(), Fail> {
    assert!(rt; error_of(&ends(rt.alloc())?, 7) == Some(508));
    assert!(rt; error_of(&all_ends(rt.alloc())?, 7).is_none());
    Ok(())
}
