//! Numbers of 64 bits, written as 1 to 20 decimal digits or as `0x` and 1 to 16 hexadecimal digits.
ghost use Rattle.std.specs.Prelude.{◌≡◌};
ghost use Rattle.std.specs.Char.{digit_value};
ghost use Rattle.trace_read.specs.Numbers.{number_of, digits_number, has_hex_prefix};

/// What `digit` gives of each byte.
static DIGITS: [u8; 256] = [
    36, 36, 36, 36, 36, 36, 36, 36, 36, 36, 36, 36, 36, 36, 36, 36, 36, 36, 36, 36, 36, 36, 36, 36,
    36, 36, 36, 36, 36, 36, 36, 36, 36, 36, 36, 36, 36, 36, 36, 36, 36, 36, 36, 36, 36, 36, 36, 36,
    0, 1, 2, 3, 4, 5, 6, 7, 8, 9, 36, 36, 36, 36, 36, 36, 36, 10, 11, 12, 13, 14, 15, 16, 17, 18,
    19, 20, 21, 22, 23, 24, 25, 26, 27, 28, 29, 30, 31, 32, 33, 34, 35, 36, 36, 36, 36, 36, 36, 10,
    11, 12, 13, 14, 15, 16, 17, 18, 19, 20, 21, 22, 23, 24, 25, 26, 27, 28, 29, 30, 31, 32, 33, 34,
    35, 36, 36, 36, 36, 36, 36, 36, 36, 36, 36, 36, 36, 36, 36, 36, 36, 36, 36, 36, 36, 36, 36, 36,
    36, 36, 36, 36, 36, 36, 36, 36, 36, 36, 36, 36, 36, 36, 36, 36, 36, 36, 36, 36, 36, 36, 36, 36,
    36, 36, 36, 36, 36, 36, 36, 36, 36, 36, 36, 36, 36, 36, 36, 36, 36, 36, 36, 36, 36, 36, 36, 36,
    36, 36, 36, 36, 36, 36, 36, 36, 36, 36, 36, 36, 36, 36, 36, 36, 36, 36, 36, 36, 36, 36, 36, 36,
    36, 36, 36, 36, 36, 36, 36, 36, 36, 36, 36, 36, 36, 36, 36, 36, 36, 36, 36, 36, 36, 36, 36, 36,
    36, 36, 36, 36, 36, 36, 36, 36, 36, 36, 36, 36, 36, 36,
];

/// The value of a digit or a letter, and 36 of any other byte.
fn digit(c: u8) -> u8
    ensures { result ≡ digit_value c }
{
    DIGITS[usize::from(c)]
}

/// What 1 to 16 hexadecimal digits write, which always fits.
fn hexadecimal(word: &[u8]) -> Option<u64>
    ensures { result ≡ digits_number 16 16 word.now }
{
    if word.is_empty() || word.len() > 16 {
        return None;
    }
    let mut value = 0;
    for c in word {
        let d = digit(*c);
        if d >= 16 {
            return None;
        }
        value = value * 16 + u64::from(d);
    }
    Some(value)
}

/// What 1 to 20 decimal digits write, if that fits.
fn decimal(word: &[u8]) -> Option<u64>
    ensures { result ≡ digits_number 10 20 word.now }
{
    if word.is_empty() || word.len() > 20 {
        return None;
    }
    let mut value = 0u128;
    for c in word {
        let d = digit(*c);
        if d >= 10 {
            return None;
        }
        value = value * 10 + u128::from(d);
    }
    if value > u128::from(u64::MAX) {
        return None;
    }
    Some(value as u64)
}

fn is_hex(word: &[u8]) -> bool
    ensures { result ≡ has_hex_prefix word.now }
{
    word.len() > 1 && word[0] == b'0' && (word[1] == b'x' || word[1] == b'X')
}

/// The number that a word writes, in decimal or, after `0x`, in hexadecimal.
#[tactic(auto, unfolding(crate::specs::Numbers::number_of))]
pub fn number(word: &[u8]) -> Option<u64>
    ensures { result ≡ number_of word.now }
{
    if is_hex(word) {
        hexadecimal(&word[2..])
    } else {
        decimal(word)
    }
}
