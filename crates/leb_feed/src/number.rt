//! LEB128 numbers (Core 5.2.2), read from a slice.

ghost use Rattle.std.specs.Prelude.{◌≡◌, ◌↔◌, ℕ, ℤ, ◌+◌, ◌-◌, ◌≤◌, ◌<◌, length, drop};
ghost use Rattle.wasm_defs.specs.Numbers.{BeginsWithNumber, IsCutOff, IsNoNumber, number_at, last_byte};
ghost use Rattle.leb_feed.specs.Answers.{answer};

/// What is at an index of a slice.
#[derive(Clone, Copy, Debug, PartialEq, Eq)]
pub enum ReadAt {
    /// A number, and the index after it.
    Number(i128, usize),
    /// The slice ends inside a number's encoding, or before it.
    CutOff,
    /// No number's encoding begins so.
    Bad,
}

/// The number of 1 to 64 bits at an index of a slice, signed or unsigned.
#[inline(always)]
pub fn read_at(bytes: &[u8], place: usize, bits: u32, signed: bool) -> ReadAt
    requires some_bits { 1 ≤ bits }
    requires few_bits { bits ≤ 64 }
    requires inside { place ≤ length bytes.now }
    ensures number { (n : ℤ) (next : ℕ) → (result ≡ ReadAt.Number n next)
        ↔ ((len : ℕ) × (next ≡ place + len) × BeginsWithNumber signed bits (drop place bytes.now) n len) }
    ensures cut_off { (result ≡ ReadAt.CutOff) ↔ IsCutOff signed bits (drop place bytes.now) }
    ensures bad { (result ≡ ReadAt.Bad) ↔ IsNoNumber signed bits (drop place bytes.now) }
    ensures exact { result ≡ answer place (number_at signed bits (drop place bytes.now)) }
{
    number_from(bytes, place, bits, signed)
}

/// Most numbers have one byte.
#[inline(always)]
fn number_from(bytes: &[u8], place: usize, bits: u32, signed: bool) -> ReadAt
    requires some_bits { 1 ≤ bits }
    requires few_bits { bits ≤ 64 }
    requires inside { place ≤ length bytes.now }
    ensures exact { result ≡ answer place (number_at signed bits (drop place bytes.now)) }
{
    if 7 <= bits && place < bytes.len() {
        let byte = bytes[place];
        if byte < 64 {
            return ReadAt::Number(i128::from(byte), place + 1);
        }
        if signed && byte < 128 {
            return ReadAt::Number(i128::from(byte) - 128, place + 1);
        }
    }
    number_of_bytes(bytes, place, bits, signed)
}

/// The bytes so far come to `low`, which has `low_bits` bits.
#[tactic(auto, unfolding(wasm_defs::specs::Numbers::number_at))]
fn number_of_bytes(bytes: &[u8], place: usize, bits: u32, signed: bool) -> ReadAt
    requires some_bits { 1 ≤ bits }
    requires few_bits { bits ≤ 64 }
    requires inside { place ≤ length bytes.now }
    ensures exact { result ≡ answer place (number_at signed bits (drop place bytes.now)) }
{
    let mut at = place;
    let mut left = bits;
    let mut low_bits: u32 = 0;
    let mut low: u64 = 0;
    while at < bytes.len() {
        let byte = bytes[at];
        if byte < 128 {
            return match last_byte(byte, at + 1, left, signed) {
                ReadAt::Number(high, next) => {
                    let scale = i128::from(1u64 << low_bits);
                    ReadAt::Number(i128::from(low) + scale * high, next)
                }
                other => other,
            };
        }
        if left <= 7 {
            return ReadAt::Bad;
        }
        low += u64::from(byte - 128) << low_bits;
        at += 1;
        left -= 7;
        low_bits += 7;
    }
    ReadAt::CutOff
}

// A byte below 128, after which the number ends.
fn last_byte(byte: u8, next: usize, bits: u32, signed: bool) -> ReadAt
    requires low { byte < 128 }
    requires ends { 1 ≤ next }
    requires few_bits { bits ≤ 64 }
    ensures exact { result ≡ answer (next - 1) (last_byte signed bits byte) }
{
    let byte = i128::from(byte);
    if !signed {
        let limit = 1i128 << bits;
        return if byte < limit {
            ReadAt::Number(byte, next)
        } else {
            ReadAt::Bad
        };
    }
    let limit = 1i128 << bits.saturating_sub(1);
    let value = if byte < 64 { byte } else { byte - 128 };
    if -limit <= value && value < limit {
        ReadAt::Number(value, next)
    } else {
        ReadAt::Bad
    }
}
