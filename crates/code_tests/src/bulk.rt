//! Instruction words of bulk memory that were put together by hand from the manual's tables.

use bulk_emit::{emit_drop, emit_fill};
use frame_layout::Layout;
use rv_isa::WordBuffer;
use std::test::Fail;

/// Operand j has the slot 3 + j.
const LAYOUT: Layout = Layout {
    params: 2,
    locals: 0,
    greatest: 3,
};

#[test]
fn bytes_are_filled(rt: HostRuntime) -> Result<(), Fail> {
    let mut buffer = WordBuffer::new(rt.alloc())?;
    emit_fill(&mut buffer, &LAYOUT, 3)?;
    let words = buffer.finish().to_vec(rt.alloc())?;
    assert_eq!(rt; words.len(), 24);
    // beq t0, t2, 16; sb t1, 0(t0); addi t0, t0, 1; jal zero, -12
    let want = [0x0072_8863, 0x0062_8023, 0x0012_8293, 0xFF5F_F06F];
    let mut last = [0; 4];
    for (slot, word) in last.iter_mut().zip(words.iter().skip(20)) {
        *slot = *word;
    }
    assert_eq!(rt; last, want);
    Ok(())
}

#[test]
fn a_segment_is_dropped(rt: HostRuntime) -> Result<(), Fail> {
    let mut buffer = WordBuffer::new(rt.alloc())?;
    emit_drop(&mut buffer, 1, 1)?;
    // lui t3, 0; add t3, t3, s3; sd zero, 24(t3)
    let want = [0x0000_0E37, 0x013E_0E33, 0x000E_3C23];
    assert_eq!(rt;
        buffer.finish().to_vec(rt.alloc())?.as_slice(),
        want.as_slice()
    );
    Ok(())
}
