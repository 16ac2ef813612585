//! Laws of verdicts.

ghost use Rattle.std.specs.Prelude.{◌≡◌, ◌≢◌, ℕ, List, ◌++◌, length, Option, Some};
ghost use Rattle.wasm_defs.specs.declared.fault.Kind.TheVariants.{Ended};
ghost use Rattle.wasm_defs.specs.declared.fault.Refusal.{Refusal};
ghost use Rattle.wasm_defs.specs.Faults.{Verdict, Rejected};
ghost use Rattle.wasm_defs.specs.Outside.{Owed, module_read};
ghost use Rattle.image_linker.specs.Judging.{IsFaultOf, IsVerdictOf, IsStoppedAt, lasting_fault};

/// Bytes have one verdict: they are one module, or they have one error of least offset.
pub fn verdicts_are_one()
    ensures { (bytes : List ℕ) (v w : Verdict) → IsVerdictOf bytes v → IsVerdictOf bytes w → v ≡ w }
{}

/// No two errors of the same bytes share an offset.
pub fn faults_share_no_offset()
    ensures { (bytes : List ℕ) (r s : Refusal) → IsFaultOf bytes r → IsFaultOf bytes s → r.offset ≡ s.offset → r ≡ s }
{}

/// Whatever comes after bytes, their errors stay, but that more bytes were expected.
pub fn faults_stay()
    ensures { (bytes more : List ℕ) (r : Refusal) → IsFaultOf bytes r → r.kind ≢ Ended → IsFaultOf (bytes ++ more) r }
{}

/// `Ended` is said of the bytes' number alone, where more of them are expected outside bodies.
pub fn ended_is_owed()
    ensures { (bytes : List ℕ) (r : Refusal) → IsFaultOf bytes r → r.kind ≡ Ended →
        ((module_read bytes).ending ≡ Owed) × (r.offset ≡ length bytes) }
{}

/// What decides where a source failed decides whatever else would have come: a reader that stops at that error answers as one
/// that reads on. It is one error, or none; the verdict of the bytes that came says which.
pub fn what_stopped_decides()
    ensures stays { (bytes more : List ℕ) (r : Refusal) → IsStoppedAt bytes (Some r) → IsStoppedAt (bytes ++ more) (Some r) }
    ensures verdict { (bytes more : List ℕ) (r : Refusal) → IsStoppedAt bytes (Some r) → IsVerdictOf (bytes ++ more) (Rejected r) }
    ensures one { (bytes : List ℕ) (r s : Option Refusal) → IsStoppedAt bytes r → IsStoppedAt bytes s → r ≡ s }
    ensures told { (bytes : List ℕ) (v : Verdict) → IsVerdictOf bytes v → IsStoppedAt bytes (lasting_fault v) }
{}
