//! The fields of an instruction word that name a register or hold an immediate. Their types keep them in range.
ghost use Rattle.std.specs.Prelude.{◌≡◌, ◌^◌, ◌<◌};

use std::marker::Model;

/// One of the registers x0 to x31 (section 2.1). Contracts see its number.
#[derive(Clone, Copy, Debug, PartialEq, Eq)]
pub struct Register {
    bits: u8,
}

impl Model for Register {
    ghost use Rattle.std.specs.Prelude.{ℕ, ◌<◌, ◌^◌};

    ghost Value = { ℕ };

    ghost view = { λ a. a.bits };

    ghost invariant = { λ a. a.bits < 2 ^ 5 };

    ghost inverse = { λ n. record { bits = n } };
}

impl Register {
    /// zero, which holds 0. The names are those of the calling convention (chapter 25).
    pub const ZERO: Self = Register { bits: 0 };
    /// ra
    pub const RA: Self = Register { bits: 1 };
    /// t0
    pub const T0: Self = Register { bits: 5 };
    /// t1
    pub const T1: Self = Register { bits: 6 };
    /// t2
    pub const T2: Self = Register { bits: 7 };
    /// s0
    pub const S0: Self = Register { bits: 8 };
    /// a0
    pub const A0: Self = Register { bits: 10 };
    /// a7
    pub const A7: Self = Register { bits: 17 };
    /// s5
    pub const S5: Self = Register { bits: 21 };
    /// t3
    pub const T3: Self = Register { bits: 28 };

    /// The register of this number.
    #[inline(always)]
    pub const fn new(bits: u8) -> Self
        requires { bits < 2 ^ 5 }
        ensures { result ≡ bits }
    {
        Register { bits }
    }

    /// The number of the register.
    #[inline(always)]
    pub const fn bits(self) -> u8
        ensures value { result ≡ self }
        ensures small { result < 2 ^ 5 }
    {
        self.bits
    }
}

/// The twelve bits of an immediate of the I, S or B format (section 2.3), which contracts see as a number: in two's
/// complement, and in the B format the bits 1 to 12 of the offset, whose lowest bit is 0.
#[derive(Clone, Copy, Debug, PartialEq, Eq)]
pub struct Imm12 {
    bits: u16,
}

impl Model for Imm12 {
    ghost use Rattle.std.specs.Prelude.{ℕ, ◌<◌, ◌^◌};

    ghost Value = { ℕ };

    ghost view = { λ a. a.bits };

    ghost invariant = { λ a. a.bits < 2 ^ 12 };

    ghost inverse = { λ n. record { bits = n } };
}

impl Imm12 {
    /// The immediate of these bits.
    #[inline(always)]
    pub const fn new(bits: u16) -> Self
        requires { bits < 2 ^ 12 }
        ensures { result ≡ bits }
    {
        Imm12 { bits }
    }

    /// The bits of the immediate.
    #[inline(always)]
    pub const fn bits(self) -> u16
        ensures value { result ≡ self }
        ensures small { result < 2 ^ 12 }
    {
        self.bits
    }
}

/// The twenty bits of an immediate of the U or J format (section 2.3), which contracts see as a number: in the U
/// format the upper bits of the value, in the J format the bits 1 to 20 of the offset, whose lowest bit is 0.
#[derive(Clone, Copy, Debug, PartialEq, Eq)]
pub struct Imm20 {
    bits: u32,
}

impl Model for Imm20 {
    ghost use Rattle.std.specs.Prelude.{ℕ, ◌<◌, ◌^◌};

    ghost Value = { ℕ };

    ghost view = { λ a. a.bits };

    ghost invariant = { λ a. a.bits < 2 ^ 20 };

    ghost inverse = { λ n. record { bits = n } };
}

impl Imm20 {
    /// The immediate of these bits.
    #[inline(always)]
    pub const fn new(bits: u32) -> Self
        requires { bits < 2 ^ 20 }
        ensures { result ≡ bits }
    {
        Imm20 { bits }
    }

    /// The bits of the immediate.
    #[inline(always)]
    pub const fn bits(self) -> u32
        ensures value { result ≡ self }
        ensures small { result < 2 ^ 20 }
    {
        self.bits
    }
}

/// By how many bits a shift of 64 bits goes (section 5.2).
#[derive(Clone, Copy, Debug, PartialEq, Eq)]
pub struct Shamt6 {
    bits: u8,
}

impl Model for Shamt6 {
    ghost use Rattle.std.specs.Prelude.{ℕ, ◌<◌, ◌^◌};

    ghost Value = { ℕ };

    ghost view = { λ a. a.bits };

    ghost invariant = { λ a. a.bits < 2 ^ 6 };

    ghost inverse = { λ n. record { bits = n } };
}

impl Shamt6 {
    /// The amount of these bits.
    #[inline(always)]
    pub const fn new(bits: u8) -> Self
        requires { bits < 2 ^ 6 }
        ensures { result ≡ bits }
    {
        Shamt6 { bits }
    }

    /// The bits of the amount.
    #[inline(always)]
    pub const fn bits(self) -> u8
        ensures value { result ≡ self }
        ensures small { result < 2 ^ 6 }
    {
        self.bits
    }
}

/// By how many bits a shift of 32 bits goes (section 5.2).
#[derive(Clone, Copy, Debug, PartialEq, Eq)]
pub struct Shamt5 {
    bits: u8,
}

impl Model for Shamt5 {
    ghost use Rattle.std.specs.Prelude.{ℕ, ◌<◌, ◌^◌};

    ghost Value = { ℕ };

    ghost view = { λ a. a.bits };

    ghost invariant = { λ a. a.bits < 2 ^ 5 };

    ghost inverse = { λ n. record { bits = n } };
}

impl Shamt5 {
    /// The amount of these bits.
    #[inline(always)]
    pub const fn new(bits: u8) -> Self
        requires { bits < 2 ^ 5 }
        ensures { result ≡ bits }
    {
        Shamt5 { bits }
    }

    /// The bits of the amount.
    #[inline(always)]
    pub const fn bits(self) -> u8
        ensures value { result ≡ self }
        ensures small { result < 2 ^ 5 }
    {
        self.bits
    }
}
