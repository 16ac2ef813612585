//! What the encodings of numbers are in the standard's terms.

ghost use Rattle.std.specs.Prelude.{◌<◌, ◌^◌, ℕ, true, false};
ghost use Rattle.module_gen.specs.Numbers.{IsShortest, signed, unsigned};

/// The bytes of a number are its encoding by LEB128, and no encoding of it is shorter (Core 5.2.2).
pub fn numbers_are_short()
    ensures without_sign { (n : ℕ) → n < 2 ^ 32 → IsShortest false n (unsigned n) }
    ensures with_sign { (n : ℕ) → n < 2 ^ 31 → IsShortest true n (signed n) }
{}
