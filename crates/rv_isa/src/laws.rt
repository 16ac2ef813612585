//! Laws of the step table, for the proofs of other crates. Each function does nothing: its contract is the law, which
//! `specs/Laws.antt` states.
ghost use Rattle.rv_isa.specs.Laws.{RunsGoOn, CallsStay, FaultsStay, StepsKeepSizes, RunsKeepSizes, StepsStaySound, RunsStaySound, WordsStand, BlocksRun};
ghost use Rattle.rv_isa.specs.Laws.{BlocksKeep, LoadsAreExact, StoresAreExact, WrittenIsRead, AboveStays, BelowStays, WrittenRegisterIsRead};
ghost use Rattle.rv_isa.specs.Laws.{OtherRegistersStay, PartsMeet, PartsMeetDown, LoadsBehind, StoresBehind};

/// Runs compose, and one that is over stays over.
pub fn run_law()
    ensures go_on { RunsGoOn }
    ensures calls { CallsStay }
    ensures faults { FaultsStay }
{}

/// The instruction words of operations have these operations wherever they are in a text.
pub fn text_law()
    ensures { WordsStand }
{}

/// Operations that only compute take a step each.
pub fn block_law()
    ensures run { BlocksRun }
    ensures keep { BlocksKeep }
{}

/// A load or store is done exactly where its bytes are in one region.
pub fn access_law()
    ensures loads { LoadsAreExact }
    ensures stores { StoresAreExact }
{}

/// What was written is read, and nothing else changes.
pub fn byte_law()
    ensures same { WrittenIsRead }
    ensures above { AboveStays }
    ensures below { BelowStays }
{}

/// A step and a run keep how many bytes each region has.
pub fn size_law()
    ensures step { StepsKeepSizes }
    ensures run { RunsKeepSizes }
{}

/// Where a text has instruction words of 32 bits, a step and a run keep registers and the program counter below 2 ^
/// 64, and bytes below 256.
pub fn range_law()
    ensures step { StepsStaySound }
    ensures run { RunsStaySound }
{}

/// A register that was written has what was written, unless it is x0, and the others stay.
pub fn register_law()
    ensures same { WrittenRegisterIsRead }
    ensures others { OtherRegistersStay }
{}

/// An offset's parts add up to it, and three words load or store a doubleword at an offset from a register.
pub fn offset_law()
    ensures parts { PartsMeet }
    ensures parts_down { PartsMeetDown }
    ensures load { LoadsBehind }
    ensures store { StoresBehind }
{}
