//! Laws of the templates, for the proofs of other crates. Each function does nothing: its contract is the law, which
//! `specs/BulkLaws.antt` states.
ghost use Rattle.simulation.specs.BulkLaws.{FillLaw, CopyLaw, InitLaw, DropLaw};

/// The instruction words of `memory.fill` write one byte to many addresses, in four steps each, or trap before the first where one
/// is past the end of the memory.
#[tactic(auto, using(crate::proofs::Memory::Bulk::Fill::fill_law_does))]
pub fn fill_law()
    ensures { FillLaw }
{}

/// The instruction words of `memory.copy` write the bytes that were there before to other addresses, in seven steps each at most,
/// or trap before the first where one is past the end of the memory.
#[tactic(auto, using(crate::proofs::Memory::Bulk::Copy::copy_law_does))]
pub fn copy_law()
    ensures { CopyLaw }
{}

/// The instruction words of `memory.init` write bytes of a data segment, in six steps each, or trap before the first where one is
/// past the end of the segment or of the memory.
#[tactic(auto, using(crate::proofs::Memory::Bulk::Init::init_law_does))]
pub fn init_law()
    ensures { InitLaw }
{}

/// The instruction words of `data.drop` leave a data segment no byte.
pub fn drop_law()
    ensures { DropLaw }
{}
