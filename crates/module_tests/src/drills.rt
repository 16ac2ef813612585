//! Drills whose bytes were worked out by hand.

ghost use Rattle.std.specs.Prelude.{◌≤◌};

use module_gen::drill_module;
use std::alloc::Global;
use std::test::Fail;

#[test]
fn the_drill_of_one(rt: HostRuntime) -> Result<(), Fail> {
    let bytes = drill_module(rt.alloc(), 1)?;
    let wanted: [u8; 52] = [
        0x00, 0x61, 0x73, 0x6D, 0x01, 0x00, 0x00, 0x00, 0x01, 0x0A, 0x02, 0x60, 0x01, 0x7F, 0x01,
        0x7F, 0x60, 0x00, 0x01, 0x7F, 0x03, 0x03, 0x02, 0x00, 0x01, 0x07, 0x07, 0x01, 0x03, 0x72,
        0x75, 0x6E, 0x00, 0x01, 0x0A, 0x10, 0x02, 0x07, 0x00, 0x20, 0x00, 0x41, 0x00, 0x6A, 0x0B,
        0x06, 0x00, 0x41, 0x00, 0x10, 0x00, 0x0B,
    ];
    assert!(rt; bytes.as_slice() == wanted.as_slice());
    Ok(())
}

fn size_of(alloc: Global, n: u32) -> Result<usize, Fail>
    requires least { 1 ≤ n }
    requires most { n ≤ 50000 }
{
    Ok(drill_module(alloc, n)?.len())
}

#[test]
fn large_drills_have_their_sizes(rt: HostRuntime) -> Result<(), Fail> {
    assert!(rt; size_of(rt.alloc(), 1000)? == 12_855);
    assert!(rt; size_of(rt.alloc(), 50_000)? == 725_285);
    Ok(())
}
