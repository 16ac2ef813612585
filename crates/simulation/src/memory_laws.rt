//! Laws of the templates and of the regions, for the proofs of other crates. Each function does nothing: its contract is the law,
//! which a file of `specs/` states.
ghost use Rattle.simulation.specs.VariableLaws.{LocalSetLaw, SelectLaw};
ghost use Rattle.simulation.specs.GlobalLaws.{GlobalGetLaw, GlobalSetLaw};
ghost use Rattle.simulation.specs.MemoryLaws.{AddressLaw, LoadLaw, LoadRangeLaw, StoreLaw, SizeLaw, GrowLaw, GrownLaw, GrownMemoryLaw, ZerosBehindLaw};
ghost use Rattle.simulation.specs.TableLaws.{IndirectLaw};
ghost use Rattle.simulation.specs.StoreLaws.{GlobalInsideLaw, GlobalReadLaw, GlobalWrittenLaw, WrittenLaw, BytesStayLaw, BytesOfLaw, GrowsLaw};
ghost use Rattle.simulation.specs.StoreStands.{StoreKeptLaw, StoreStoredLaw, StoreDroppedLaw, StoreSetLaw, StoreGrownLaw};

/// The instruction words of `local.set` and `local.tee` copy the topmost operand into a parameter or declared local.
#[tactic(auto, using(crate::proofs::Memory::Instructions::local_set_does))]
pub fn local_set_law()
    ensures { LocalSetLaw }
{}

/// The instruction words of `select` leave the first of two operands in its slot where the condition isn't zero, and put the
/// second one there where it is.
pub fn select_law()
    ensures { SelectLaw }
{}

/// The instruction words of `global.get` copy a global into the operand above those on the stack.
pub fn global_get_law()
    ensures { GlobalGetLaw }
{}

/// The instruction words of `global.set` copy the topmost operand into a global.
pub fn global_set_law()
    ensures { GlobalSetLaw }
{}

/// The instruction words of an address lead to the address of bytes in the memory where they are inside it, and trap where they
/// aren't.
#[tactic(auto, using(crate::proofs::Memory::Addresses::address_does))]
pub fn address_law()
    ensures { AddressLaw }
{}

/// A number that is loaded is below the modulus of its type.
#[tactic(auto, using(crate::proofs::Memory::Parts::load_range))]
pub fn load_range_law()
    ensures { LoadRangeLaw }
{}

/// The instruction words of a load put the number of the bytes, extended to its type, in place of the address, or trap where the
/// bytes aren't in the memory.
#[tactic(auto, using(crate::proofs::Memory::Loads::load_does))]
pub fn load_law()
    ensures { LoadLaw }
{}

/// The instruction words of a store put the low bytes of the operand at the address, or trap where they aren't in the memory.
#[tactic(auto, using(crate::proofs::Memory::Stores::store_law_does))]
pub fn store_law()
    ensures { StoreLaw }
{}

/// The instruction words of `memory.size` put the number of pages into the operand above those on the stack.
#[tactic(auto, using(crate::proofs::Memory::Growing::size_does))]
pub fn size_law()
    ensures { SizeLaw }
{}

/// The instruction words of `memory.grow` ask the environment for pages.
#[tactic(auto, using(crate::proofs::GrowingMemory::grow_does))]
pub fn grow_law()
    ensures { GrowLaw }
{}

/// And put its answer into the operand's slot.
#[tactic(auto, using(crate::proofs::GrowingMemory::grown_does))]
pub fn grown_law()
    ensures { GrownLaw }
{}

/// Where zeros follow the memory, that of more pages is the grown one.
#[tactic(auto, using(crate::proofs::Memory::Growing::grown_memory))]
pub fn grown_memory_law()
    ensures { GrownMemoryLaw }
{}

/// Zeros then follow it too.
#[tactic(auto, using(crate::proofs::Memory::Growing::zeros_behind))]
pub fn zeros_behind_law()
    ensures { ZerosBehindLaw }
{}

/// The instruction words of `call_indirect` lead to the first word of the row's function, or trap where there is no such row,
/// where it is empty, or where the function has another type.
pub fn indirect_law()
    ensures { IndirectLaw }
{}

/// A global of the store is in the globals' region.
#[tactic(auto, using(crate::proofs::Memory::Standing::global_inside))]
pub fn global_inside_law()
    ensures { GlobalInsideLaw }
{}

/// What is read there is the global's 64-bit value.
#[tactic(auto, using(crate::proofs::Memory::Standing::global_read))]
pub fn global_read_law()
    ensures { GlobalReadLaw }
{}

/// Where a 64-bit value is written, that global alone is another one.
#[tactic(auto, using(crate::proofs::Memory::Standing::global_written))]
pub fn global_written_law()
    ensures { GlobalWrittenLaw }
{}

/// Bytes that are stored change the memory alone, and nothing after it.
#[tactic(auto, using(crate::proofs::Memory::Standing::written_stands))]
pub fn written_law()
    ensures { WrittenLaw }
{}

/// The environment grows the memory where the cap allows it.
#[tactic(auto, using(crate::proofs::Memory::Answering::grows_does))]
pub fn grows_law()
    ensures { GrowsLaw }
{}

/// Bytes that are stored leave a memory of bytes.
#[tactic(auto, using(crate::proofs::Memory::Standing::bytes_stay))]
pub fn bytes_stay_law()
    ensures { BytesStayLaw }
{}

/// The bytes of a number are bytes.
#[tactic(auto, using(crate::proofs::Memory::Standing::bytes_of_are))]
pub fn bytes_of_law()
    ensures { BytesOfLaw }
{}

/// What changes neither the memory nor the globals keeps the store in its regions.
pub fn store_kept_law()
    ensures { StoreKeptLaw }
{}

/// So does a store,
pub fn store_stored_law()
    ensures { StoreStoredLaw }
{}

/// a data segment that is dropped,
pub fn store_dropped_law()
    ensures { StoreDroppedLaw }
{}

/// a global that is set,
pub fn store_set_law()
    ensures { StoreSetLaw }
{}

/// and the environment's answer where the memory has grown.
pub fn store_grown_law()
    ensures { StoreGrownLaw }
{}
