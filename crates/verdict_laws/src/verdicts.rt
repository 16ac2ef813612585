//! Every input has a verdict.

ghost use Rattle.std.specs.Prelude.{◌≤◌, ◌↔◌, ◌⊎◌, ℕ, Bool, List};
ghost use Rattle.wasm_defs.specs.declared.fault.Refusal.{Refusal};
ghost use Rattle.wasm_defs.specs.Bodies.{body_read};
ghost use Rattle.wasm_defs.specs.Faults.{IsCodeFault, IsValidCode, Module, Verdict};
ghost use Rattle.wasm_defs.specs.Items.{Section};
ghost use Rattle.wasm_defs.specs.Limits.{max_text};
ghost use Rattle.wasm_defs.specs.Trees.{Seq};
ghost use Rattle.wasm_defs.specs.Typing.{Context};
ghost use Rattle.wasm_laws.specs.Sections.{AreBytes};
ghost use Rattle.body_laws.specs.Spelled.{IsSpelledModule};
ghost use Rattle.image_linker.specs.Judging.{IsFaultOf, IsModuleOf, IsVerdictOf, sizes, text_bytes};

/// The code of a body, in a module that counts its data segments or doesn't, is valid, with a tree, or it has an error; never both.
pub fn each_code_is_judged()
    ensures one { (c : Context) (counted : Bool) (first : ℕ) (bytes : List ℕ) →
        ((tree : Seq) × IsValidCode c (body_read counted first bytes).code tree)
        ⊎ ((r : Refusal) × IsCodeFault c (body_read counted first bytes).code r) }
    ensures not_both { (c : Context) (counted : Bool) (first : ℕ) (bytes : List ℕ) (tree : Seq) (r : Refusal) →
        IsValidCode c (body_read counted first bytes).code tree → IsCodeFault c (body_read counted first bytes).code r → ⊥ }
{}

/// Any bytes have a verdict: they are a module, or they have an error, of which one has the least offset.
pub fn each_has_a_verdict()
    ensures { (bytes : List ℕ) → (v : Verdict) × IsVerdictOf bytes v }
{}

/// Bytes have no error exactly where they are a module: where the grammar encodes them, their bodies too, the rules are kept,
/// the trees are typed, and the text keeps its limit.
pub fn no_fault_is_a_module()
    ensures read { (bytes : List ℕ) →
        ((r : Refusal) → IsFaultOf bytes r → ⊥) ↔ ((m : Module) × IsModuleOf bytes m) }
    ensures spelled { (bytes : List ℕ) → AreBytes bytes →
        ((r : Refusal) → IsFaultOf bytes r → ⊥)
        ↔ ((m : Module) × (sections : List Section) × IsSpelledModule bytes m sections × (text_bytes m.items (sizes m.items 0 m.bodies m.trees) ≤ max_text)) }
{}
