// Bytes in hexadecimal, where `-` stands for no bytes, into memory that the caller lends.
ghost use Rattle.std.specs.Prelude.{◌≡◌, ◌/◌, length, MatchResult};
ghost use Rattle.std.specs.Char.{is_ascii_hexdigit};
ghost use Rattle.std.specs.List.{list_all};
ghost use Rattle.hex.specs.Hex.{decode_of};
ghost use Rattle.script.specs.Decoded.{digits_of, well_spelled, decoded_in, count_of, written_over};

use crate::reading::LineError;
use hex::decode_to_slice;

fn are_digits(text: &str) -> bool
    ensures { result ≡ list_all is_ascii_hexdigit text.now }
{
    text.as_bytes().iter().all(|byte| byte.is_ascii_hexdigit())
}

// Writes the bytes that the digits spell over all of `out`. All digits are looked at before any
// byte is written.
fn fill(digits: &str, out: &mut [u8]) -> Result<(), LineError>
    requires { length out.old ≡ length digits.now / 2 }
    ensures { MatchResult (well_spelled (decode_of digits.now))
        (λ bytes. (result ≡ Ok tt) × (out.new ≡ bytes))
        (λ why. (result ≡ Err why) × (out.new ≡ out.old)) }
{
    if !are_digits(digits) {
        return Err(LineError::Spelling);
    }
    match decode_to_slice(digits, out) {
        Ok(()) => Ok(()),
        Err(_) => Err(LineError::Spelling),
    }
}

// Writes the bytes that are spelled, two digits for each, at the front of the scratch, and answers
// how many they are.
pub(crate) fn decode(text: &str, scratch: &mut [u8]) -> Result<usize, LineError>
    ensures count { result ≡ count_of (decoded_in (length scratch.old) (digits_of text.now)) }
    ensures after { scratch.new ≡ written_over scratch.old
        (decoded_in (length scratch.old) (digits_of text.now)) }
{
    let digits = if text == "-" { "" } else { text };
    let length = digits.len() / 2;
    if scratch.len() < length {
        return Err(LineError::NoRoom);
    }
    fill(digits, &mut scratch[..length])?;
    Ok(length)
}
