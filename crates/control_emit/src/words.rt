//! The instruction words of a jump, appended or patched where its target is known.

ghost use Rattle.std.specs.Prelude.{◌≡◌, map};
ghost use Rattle.rv_isa.specs.declared.operations.Op.TheVariants.{Auipc as AuipcGiven};
ghost use Rattle.rv_isa.specs.Words.{word_of};
ghost use Rattle.frame_layout.specs.Macros.{distance, far};

use frame_layout::macros::{distance, upper};
use rv_isa::{Imm12, Imm20, Register, encode_jalr, encode_lui};

/// The instruction word of AUIPC: that of LUI but for the opcode.
#[inline(always)]
#[tactic(auto, unfolding(rv_isa::specs::Words::word_of))]
fn encode_auipc(rd: Register, imm: Imm20) -> u32
    ensures { result ≡ word_of (AuipcGiven rd imm) }
{
    encode_lui(rd, imm) - 0x20
}

/// A jump from one index to another.
#[inline(always)]
pub fn far(here: usize, there: usize) -> [u32; 2]
    ensures { result ≡ map word_of (far (distance here there)) }
{
    let distance = distance(here, there);
    let lower = Imm12::new((distance % 4096) as u16);
    [
        encode_auipc(Register::T3, upper(distance)),
        encode_jalr(Register::ZERO, Register::T3, lower),
    ]
}
