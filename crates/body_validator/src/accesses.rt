//! What loads and stores access (Core 3.3.4.1 to 3.3.4.4), by their rows in the table of opcodes: the type of the value, and the
//! greatest alignment, which is that of the bytes in memory, as a power of two.

ghost use Rattle.std.specs.Prelude.{◌≡◌};
ghost use Rattle.wasm_defs.specs.Typing.{load_type, load_alignment, store_type, store_alignment};

use wasm_defs::{Access, LoadOp, StoreOp, ValType};

/// The type of the value that is loaded.
pub fn load_type(op: LoadOp) -> ValType
    ensures { result ≡ load_type op }
{
    Access::Load(op).ty().value
}

/// The greatest alignment of a load.
pub fn load_alignment(op: LoadOp) -> u32
    ensures { result ≡ load_alignment op }
{
    Access::Load(op).ty().alignment
}

/// The type of the value that is stored.
pub fn store_type(op: StoreOp) -> ValType
    ensures { result ≡ store_type op }
{
    Access::Store(op).ty().value
}

/// The greatest alignment of a store.
pub fn store_alignment(op: StoreOp) -> u32
    ensures { result ≡ store_alignment op }
{
    Access::Store(op).ty().alignment
}
