//! The shortest encodings of numbers (WebAssembly Core 1.0, 5.2.2).

ghost use Rattle.std.specs.Prelude.{◌≡◌, ◌≤◌, ◌++◌, length, OnOk};
ghost use Rattle.module_gen.specs.Numbers.{spelling};

use std::alloc::AllocError;

/// The bound of numbers without a sign that have one byte.
pub const UNSIGNED_END: u32 = 128;

/// The bound of those with a sign: the next bit of the last byte is the sign.
pub const SIGNED_END: u32 = 64;

/// How many bytes the encoding has.
pub fn spelling_size(end: u32, number: u32) -> u32
    requires least { 64 ≤ end }
    requires most { end ≤ 128 }
    ensures value { result ≡ length (spelling end 5 number) }
    ensures few { result ≤ 5 }
{
    let mut size = 1;
    let mut rest = number;
    while end <= rest {
        size += 1;
        rest /= 128;
    }
    size
}

/// Puts the encoding at the end.
pub fn put_number(out: &mut Vec<u8>, end: u32, number: u32) -> Result<(), AllocError>
    requires least { 64 ≤ end }
    requires most { end ≤ 128 }
    ensures { OnOk result (out.new.items ≡ out.old.items ++ spelling end 5 number) }
{
    let mut rest = number;
    while end <= rest {
        out.push((rest % 128) as u8 + 128)?;
        rest /= 128;
    }
    out.push(rest as u8)?;
    Ok(())
}
