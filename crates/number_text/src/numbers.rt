//! Numbers in decimal and hexadecimal digits, appended to a string or written into bytes from the
//! end backwards.
ghost use Rattle.std.specs.Prelude.{◌≡◌, ◌+◌, ◌++◌, ◌<◌, ◌≤◌, false, length, drop, OnOk, OnErr, string_bytes};
ghost use Rattle.std.specs.Fmt.{decimal, digit_glyph, digits, signed_decimal};
ghost use Rattle.std.specs.Io.{StartsWith};
ghost use Rattle.number_text.specs.Room.{TakesAtMost};
ghost use Rattle.number_text.specs.Numbers.{hex};

use itoa::Buffer;
use std::alloc::AllocError;

/// The digits of base 16.
static DIGITS: [u8; 16] = *b"0123456789abcdef";

/// The digit of a number below 16.
fn digit_of(number: u64) -> u8
    requires { number < 16 }
    ensures { result ≡ digit_glyph false number }
{
    DIGITS[number as usize]
}

/// Writes the number's digits so that they end at `end`, and returns where they start.
fn write_hexadecimal_digits(number: u64, text: &mut [u8], end: usize) -> usize
    requires room { 16 ≤ end }
    requires within { end ≤ length text.old }
    ensures low { end ≤ result + 16 }
    ensures high { result ≤ end }
    ensures written { drop result text.new ≡ digits 16 false number ++ drop end text.old }
{
    let first = end - 16;
    let mut start = end;
    let mut rest = number;
    while start > first {
        start -= 1;
        text[start] = digit_of(rest % 16);
        rest /= 16;
        if rest == 0 {
            break;
        }
    }
    start
}

/// Writes `0x` and the number's lower-case hexadecimal digits, without leading zeros, so that they
/// end at `end`, and returns where they start.
pub fn write_hexadecimal(number: u64, text: &mut [u8], end: usize) -> usize
    requires room { 18 ≤ end }
    requires within { end ≤ length text.old }
    ensures low { end ≤ result + 18 }
    ensures high { result ≤ end }
    ensures start { result + length (hex number) ≡ end }
    ensures written { drop result text.new ≡ hex number ++ drop end text.old }
{
    let start = write_hexadecimal_digits(number, text, end);
    text[start - 1] = b'x';
    text[start - 2] = b'0';
    start - 2
}

/// Writes the piece so that it ends at `end`, and returns where it starts.
pub fn write_piece(piece: &str, text: &mut [u8], end: usize) -> usize
    requires room { length piece.now ≤ end }
    requires within { end ≤ length text.old }
    ensures start { result + length piece.now ≡ end }
    ensures written { drop result text.new ≡ piece.now ++ drop end text.old }
{
    let start = end - piece.len();
    text[start..end].copy_from_slice(piece.as_bytes());
    start
}

/// Appends a text, and after it `0x` and the number's lower-case hexadecimal digits, without
/// leading zeros.
pub fn put_hexadecimal(out: &mut String, before: &str, number: u64) -> Result<(), AllocError>
    ensures text { OnOk
        result
        (string_bytes out.new ≡ string_bytes out.old ++ before.now ++ hex number) }
    ensures kept { OnErr result (StartsWith (string_bytes out.new) (string_bytes out.old)) }
    ensures room { TakesAtMost (length before.now + 18) result out.old out.new }
{
    let mut text = [b'0'; 18];
    let start = write_hexadecimal(number, &mut text, 18);
    out.push_str(before)?;
    out.push_str(unsafe { std::str::from_utf8_unchecked(&text[start..]) })
}

/// Appends a text, and after it the number's decimal digits.
pub fn put_decimal(out: &mut String, before: &str, number: u64) -> Result<(), AllocError>
    ensures text { OnOk
        result
        (string_bytes out.new ≡ string_bytes out.old ++ before.now ++ decimal number) }
    ensures kept { OnErr result (StartsWith (string_bytes out.new) (string_bytes out.old)) }
    ensures room { TakesAtMost
        (length before.now + length (decimal number))
        result
        out.old
        out.new }
{
    out.push_str(before)?;
    out.push_str(Buffer::new().format(number))
}

/// Appends a text, and after it the number's decimal digits, with a minus sign where it is below
/// zero.
pub fn put_signed(out: &mut String, before: &str, number: i64) -> Result<(), AllocError>
    ensures text { OnOk
        result
        (string_bytes out.new ≡ string_bytes out.old ++ before.now ++ signed_decimal number) }
    ensures kept { OnErr result (StartsWith (string_bytes out.new) (string_bytes out.old)) }
    ensures room { TakesAtMost
        (length before.now + length (signed_decimal number))
        result
        out.old
        out.new }
{
    out.push_str(before)?;
    out.push_str(Buffer::new().format(number))
}
