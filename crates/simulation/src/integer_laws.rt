//! Laws of numeric instructions, for the proofs of other crates. Each function does nothing: its contract is the law, which
//! `specs/Laws.antt` states.
ghost use Rattle.simulation.specs.IntegerLaws.{BinaryLaw, CompareLaw, UnaryLaw, TestLaw, ConvertLaw, BinaryRangeLaw, CompareRangeLaw, UnaryRangeLaw};
ghost use Rattle.simulation.specs.IntegerLaws.{TestRangeLaw, ConvertRangeLaw, ExtendLaw, ExtendRangeLaw, LengthLaw};

/// The instruction words of an operation on two operands put the number that it gives into the slot of the lower one, or trap
/// where it isn't defined.
#[tactic(auto, using(crate::proofs::Integers::Binary::binary_does))]
pub fn binary_law()
    ensures { BinaryLaw }
{}

/// The instruction words of a comparison put 1 into the slot of the lower operand where it holds, and else 0.
#[tactic(auto, using(crate::proofs::Integers::Comparisons::compare_does))]
pub fn compare_law()
    ensures { CompareLaw }
{}

/// The instruction words of a count of bits put it into the operand's slot.
#[tactic(auto, using(crate::proofs::Integers::Unary::unary_does))]
pub fn unary_law()
    ensures { UnaryLaw }
{}

/// The instruction words of `eqz` put 1 into the operand's slot if the operand is 0, and else 0.
#[tactic(auto, using(crate::proofs::Integers::Comparisons::test_does))]
pub fn test_law()
    ensures { TestLaw }
{}

/// The instruction words of a conversion put the number that it gives into the operand's slot.
#[tactic(auto, using(crate::proofs::Integers::Conversions::convert_does))]
pub fn convert_law()
    ensures { ConvertLaw }
{}

/// The instruction words of a sign extension put the number that it gives into the operand's slot.
#[tactic(auto, using(crate::proofs::Integers::SignExtensions::extend_does))]
pub fn extend_law()
    ensures { ExtendLaw }
{}

/// What operations give is below the modulus of its type.
pub fn range_law()
    ensures binary { BinaryRangeLaw }
    ensures compare { CompareRangeLaw }
    ensures unary { UnaryRangeLaw }
    ensures test { TestRangeLaw }
    ensures convert { ConvertRangeLaw }
    ensures extend { ExtendRangeLaw }
{}

/// No numeric instruction has more instruction words than those that count leading zeros.
#[tactic(auto, using(crate::proofs::Integers::Lengths::lengths_are_bounded))]
pub fn length_law()
    ensures { LengthLaw }
{}
