//! Laws of the definitions.

ghost use Rattle.std.specs.Prelude.{◌≡◌, ℕ, ℤ, Bool, List, ◌++◌};
ghost use Rattle.wasm_defs.specs.Numbers.{Spells};
ghost use Rattle.wasm_defs.specs.Rows.{OperationsAreInOrder, AccessesAreInOrder, OperationHasType, LoadHasType, StoreHasType};

use crate::operation::{LoadOp, Operation, StoreOp};

/// No encoding of a number is a prefix of another, and one encoding is of one number.
pub fn numbers_are_prefix_free()
    ensures { (signed : Bool) (bits : ℕ) (a b x y : List ℕ) (m n : ℤ) → Spells m bits signed a → Spells n bits signed b → a ++ x ≡ b ++ y → (a ≡ b) × (m ≡ n) }
{}

/// The rows of the tables of opcodes are in the order of the opcodes that they state.
#[tactic(auto, using(crate::proofs::RowLaws::operations_in_order, crate::proofs::RowLaws::accesses_in_order))]
pub fn rows_are_in_order()
    ensures operations { OperationsAreInOrder }
    ensures accesses { AccessesAreInOrder }
{}

/// The types that the rows state are those of typing.
#[tactic(auto, using(crate::proofs::RowLaws::operation_typed, crate::proofs::RowLaws::load_typed, crate::proofs::RowLaws::store_typed))]
pub fn rows_have_types()
    ensures operations { (op : Operation) → OperationHasType op }
    ensures loads { (op : LoadOp) → LoadHasType op }
    ensures stores { (op : StoreOp) → StoreHasType op }
{}
