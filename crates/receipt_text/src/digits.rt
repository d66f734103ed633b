//! Numbers below 2^32 read from their digits, in bases 2 to 16, by the one spelling in which they
//! are written.
ghost use Rattle.std.specs.Prelude.{◌≡◌, ◌<◌, ◌≤◌, ◌^◌, ◌↔◌, ℕ, false, length, slice_index, IsTrue, IfSome, IfNone};
ghost use Rattle.std.specs.Fmt.{digit_glyph, digits};

/// The value of a digit of the base, of which the letters are lower-case.
fn value_of(c: u8, base: u32) -> Option<u32>
    requires { base ≤ 16 }
    ensures some { IfSome result (λ d. (d < base) × (digit_glyph false d ≡ c)) }
    ensures none { IfNone result ((d : ℕ) → d < base → digit_glyph false d ≡ c → ⊥) }
{
    let value = match c {
        b'0'..=b'9' => u32::from(c - b'0'),
        b'a'..=b'f' => u32::from(c - b'a') + 10,
        _ => return None,
    };
    if value < base { Some(value) } else { None }
}

/// Whether the first of several digits is 0.
fn has_leading_zero(word: &[u8]) -> bool
    ensures { IsTrue result ↔ ((1 < length word.now) × (slice_index word.now 0 ≡ 48)) }
{
    word.len() > 1 && word[0] == b'0'
}

/// The number below 2^32 that a word writes in this base, in lower-case digits without leading
/// zeros.
pub fn number_of(word: &[u8], base: u32) -> Option<u32>
    requires low { 2 ≤ base }
    requires high { base ≤ 16 }
    ensures some { IfSome result (λ n. digits base false n ≡ word.now) }
    ensures none { IfNone result ((n : ℕ) → n < 2 ^ 32 → digits base false n ≡ word.now → ⊥) }
{
    if word.is_empty() || has_leading_zero(word) {
        return None;
    }
    let mut value = 0u64;
    for c in word {
        let digit = value_of(*c, base)?;
        value = value * u64::from(base) + u64::from(digit);
        if value > u64::from(u32::MAX) {
            return None;
        }
    }
    Some(value as u32)
}
