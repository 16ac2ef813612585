//! Registers that hold the addresses of the instance's memory and globals.

ghost use Rattle.std.specs.Prelude.{◌≡◌};
ghost use Rattle.frame_layout.specs.Macros.{s1, s2, s3};

use rv_isa::Register;

/// The address of the memory's first byte.
pub fn memory() -> Register
    ensures { result ≡ s1 }
{
    Register::new(9)
}

/// The memory's size in bytes.
pub fn memory_size() -> Register
    ensures { result ≡ s2 }
{
    Register::new(18)
}

/// The address of the first global.
pub fn globals() -> Register
    ensures { result ≡ s3 }
{
    Register::new(19)
}
