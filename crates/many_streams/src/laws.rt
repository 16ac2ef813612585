//! Frames are read in one way.

ghost use Rattle.std.specs.Prelude.{◌≡◌, ℕ, List, ◌++◌};
ghost use Rattle.many_streams.specs.Frames.{Frames, IsBadFrame, IsCutOff};

/// Bytes are frames of one list, or they are cut off, or they have a bad frame at one offset, whatever follows; never two of these.
pub fn frames_are_one()
    ensures list { (bytes : List ℕ) (list other : List (List ℕ)) → Frames bytes list → Frames bytes other → list ≡ other }
    ensures offset { (bytes : List ℕ) (at other : ℕ) → IsBadFrame bytes at → IsBadFrame bytes other → at ≡ other }
    ensures whatever_follows { (bytes more : List ℕ) (at : ℕ) → IsBadFrame bytes at → IsBadFrame (bytes ++ more) at }
    ensures frames_are_not_cut_off { (bytes : List ℕ) (list : List (List ℕ)) → Frames bytes list → IsCutOff bytes → ⊥ }
    ensures frames_are_not_bad { (bytes : List ℕ) (list : List (List ℕ)) (at : ℕ) → Frames bytes list → IsBadFrame bytes at → ⊥ }
    ensures bad_is_not_cut_off { (bytes : List ℕ) (at : ℕ) → IsBadFrame bytes at → IsCutOff bytes → ⊥ }
{}
