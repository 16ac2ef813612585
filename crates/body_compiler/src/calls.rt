//! The calls of a function whose body is in hand.

ghost use Rattle.std.specs.Prelude.{◌≡◌, IfOk};

use rv_isa::Relocation;
use std::alloc::{AllocError, Global};
use std::marker::Model;

/// A call, in half the room of its relocation, as which contracts see it.
// Why: docs/DECISIONS.md, "A body in hand keeps a call in eight bytes"
#[derive(Drop)]
pub struct Call {
    place: u32,
    function: u32,
}

impl Model for Call {
    ghost use Rattle.rv_isa.specs.declared.compiled.Relocation.{Relocation};

    ghost Value = { Relocation };

    ghost view = { λ c. record { place = c.place; function = c.function } };
}

impl Call {
    /// The call of a relocation. An index of more than 32 bits takes 16 GiB of instruction words, which counts as out of memory.
    pub fn of(relocation: Relocation) -> Result<Self, AllocError>
        ensures { IfOk result (λ call. call ≡ relocation) }
    {
        if 0xFFFF_FFFF < relocation.place {
            return Err(AllocError);
        }
        Ok(Call {
            place: relocation.place as u32,
            function: relocation.function,
        })
    }

    /// Its relocation.
    fn relocation(&self) -> Relocation
        ensures { result ≡ self.now }
    {
        Relocation {
            place: self.place as usize,
            function: self.function,
        }
    }
}

/// The relocations of calls, in no more room than they need.
pub fn relocations_of(alloc: Global, calls: &[Call]) -> Result<Vec<Relocation>, AllocError>
    ensures { IfOk result (λ relocations. relocations.items ≡ calls.now) }
{
    let mut relocations = Vec::with_capacity(alloc, calls.len())?;
    for call in calls {
        relocations.push(call.relocation())?;
    }
    Ok(relocations)
}
