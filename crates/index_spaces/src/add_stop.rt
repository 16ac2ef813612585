//! Why an item isn't added to a context.

ghost use Rattle.std.specs.Prelude.{◌≡◌};
ghost use Rattle.index_spaces.specs.declared.add_stop.AddStop.TheVariants.{NoMemory};

use std::alloc::AllocError;
use thiserror::Error;
use wasm_defs::Refusal;

/// Why an item isn't added.
#[derive(Clone, Copy, Debug, PartialEq, Eq, Error)]
pub enum AddStop {
    /// The start function isn't there, or has parameters or results: the module is invalid at its index (WebAssembly Core
    /// 1.0, 3.4.7). Or an import's type has several results: the module is unsupported at the type's index.
    #[error("refused at {offset}: {kind:?}", offset = .0.offset, kind = .0.kind)]
    Refused(Refusal),
    /// Memory ran out, or the context has 100,000 globals already, which are all that a module may have.
    #[error("memory ran out")]
    NoMemory,
}

impl From<AllocError> for AddStop {
    ghost from_gives = { λ _ e. e ≡ NoMemory };

    fn from(_e: AllocError) -> AddStop {
        AddStop::NoMemory
    }
}
