//! Laws of the definitions.

ghost use Rattle.std.specs.Prelude.{◌≡◌, ◌⊎◌, ℕ, true, false, IsSome, List};
ghost use Rattle.wasm_defs.specs.Values.{Value};
ghost use Rattle.wasm_defs.specs.Host.{HostCall, Reply};
ghost use Rattle.image_format.specs.Contents.{Image};
ghost use Rattle.image_format.specs.declared.image.Export.{Export};
ghost use Rattle.image_format.specs.declared.image.Import.{Import};
ghost use Rattle.image_run.specs.Checks.{has_unknown_import, is_known};
ghost use Rattle.image_run.specs.Ends.{run_of_export};
ghost use Rattle.wasi_host.specs.ExitCodes.{code_of_call};
ghost use Rattle.wasi_host.specs.Fitting.{IsCallOf, IsTaken, StopsByExit};
ghost use Rattle.wasi_host.specs.Own.{AreOwn};

/// The reply to a call of a function that the host knows is of its result's type, and its patch is in the memory; or the call is
/// of `proc_exit`.
pub fn replies_are_taken()
    ensures { (imports : List Import) (c : HostCall) (i : Import) → is_known i ≡ true → IsCallOf imports c i
        → IsTaken imports c i ⊎ IsSome (code_of_call imports c) }
{}

/// Each run of a function that an image exports has replies that are the host's own.
pub fn runs_have_own_replies()
    ensures { (i : Image) (e : Export) (arguments : List Value) (n : ℕ) → (rs : List Reply)
        × AreOwn i.imports (λ r. (run_of_export i e arguments r n).calls) rs }
{}

/// They are the only ones.
pub fn own_replies_are_one()
    ensures { (i : Image) (e : Export) (arguments : List Value) (n : ℕ) (rs ss : List Reply)
        → AreOwn i.imports (λ r. (run_of_export i e arguments r n).calls) rs
        → AreOwn i.imports (λ r. (run_of_export i e arguments r n).calls) ss → rs ≡ ss }
{}

/// A run of a function that an image exports, whose imports are all known, with the host's own replies, is stopped by `proc_exit`
/// alone, and by each call of it.
pub fn runs_stop_by_exits()
    ensures { (i : Image) (e : Export) (arguments : List Value) (n : ℕ) (rs : List Reply) → has_unknown_import i.imports ≡ false
        → AreOwn i.imports (λ r. (run_of_export i e arguments r n).calls) rs
        → StopsByExit i.imports (run_of_export i e arguments rs n) }
{}
