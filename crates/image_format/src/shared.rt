//! Function types that several imports and exports share.

ghost use Rattle.std.specs.Prelude.{◌≡◌, IfOk};

use std::alloc::{AllocError, Global};
use std::marker::Model;
use std::ops::Deref;
use std::sync::Arc;
use wasm_defs::FuncType;

/// A function type that has several owners: one more takes no copy of it. Contracts see the type.
#[derive(Drop)]
pub struct SharedType {
    owner: Arc<FuncType, Global>,
}

impl Model for SharedType {
    ghost use Rattle.std.specs.Arc.{arc_value};
    ghost use Rattle.wasm_defs.specs.declared.types.FuncType.{FuncType as Contents};

    ghost Value = { Contents };

    ghost view = { λ s. arc_value s.owner };
}

impl SharedType {
    /// The first owner of a type.
    pub fn new(alloc: Global, ty: FuncType) -> Result<Self, AllocError>
        ensures { IfOk result (λ s. s ≡ ty) }
    {
        Ok(SharedType {
            owner: Arc::new(alloc, ty)?,
        })
    }

    /// One more owner of the same type.
    pub fn share(&self) -> Result<Self, AllocError>
        ensures { IfOk result (λ s. s ≡ self.now) }
    {
        Ok(SharedType {
            owner: Arc::try_clone(&self.owner)?,
        })
    }
}

impl Deref for SharedType {
    type Target = FuncType;

    ghost deref_gives = { λ s ty. ty ≡ s };

    fn deref(&self) -> &FuncType
        ensures { result.now ≡ self.now }
    {
        &self.owner
    }
}
