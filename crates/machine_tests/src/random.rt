//! Pseudo-random numbers.
ghost use Rattle.std.specs.Prelude.{◌<◌};

/// The next pseudo-random number (xorshift).
pub(crate) fn next(seed: &mut u64) -> u64 {
    let mut x = *seed;
    x ^= x << 13;
    x ^= x >> 7;
    x ^= x << 17;
    *seed = x;
    x
}

/// The next pseudo-random number below a bound.
pub(crate) fn below(seed: &mut u64, bound: u64) -> u64
    requires { 0 < bound }
    ensures { result < bound }
{
    next(seed) / 0x100 % bound
}
