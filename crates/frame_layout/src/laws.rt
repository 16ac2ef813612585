//! Laws of the templates, for the proofs of other crates. Each function does nothing: its contract is the law, which
//! `specs/Laws.antt` states.
ghost use Rattle.frame_layout.specs.Laws.{ConstLaw, LocalGetLaw, AddLaw, PrologueLaw, ExhaustionLaw, EpilogueLaw, ExitLaw, ImportLaw, ImportExhaustionLaw};
ghost use Rattle.frame_layout.specs.Laws.{ImportReturnLaw, TrapsLaw, SpacedLaw};

/// A constant's instruction words put it into the operand above those on the stack.
pub fn const_law()
    ensures { ConstLaw }
{}

/// The instruction words of `local.get` copy a parameter or declared local into the operand above those on the stack.
pub fn local_get_law()
    ensures { LocalGetLaw }
{}

/// The instruction words of `i32.add` put the sum of the two uppermost operands in place of the lower one.
pub fn add_law()
    ensures { AddLaw }
{}

/// Where there is room for a function's slots, its first instruction words keep the return address and clear the declared
/// locals.
pub fn prologue_law()
    ensures { PrologueLaw }
{}

/// Where there is none, they trap.
pub fn exhaustion_law()
    ensures { ExhaustionLaw }
{}

/// A function's last instruction words bring its result, if there is one, to the frame's first slot, and lead to the return
/// address.
pub fn epilogue_law()
    ensures { EpilogueLaw }
{}

/// The exit stub ends the run.
pub fn exit_law()
    ensures { ExitLaw }
{}

/// Where there is room for its arguments, the stub of an imported function asks for the import.
pub fn import_law()
    ensures { ImportLaw }
{}

/// Where there is none, it traps.
pub fn import_exhaustion_law()
    ensures { ImportExhaustionLaw }
{}

/// After the call it leads to the return address.
pub fn import_return_law()
    ensures { ImportReturnLaw }
{}

/// The traps of an instruction are where its table says, wherever its instruction words are.
pub fn traps_law()
    ensures { TrapsLaw }
{}

/// The traps of a function are apart, inside it.
pub fn spaced_law()
    ensures { SpacedLaw }
{}
