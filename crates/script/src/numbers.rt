// Words as numbers: in hexadecimal after `0x` and else in decimal. No sign.
ghost use Rattle.std.specs.Prelude.{◌≡◌, ok_or, cond, nat_eq, codes, take, drop, slice_index};
ghost use Rattle.std.specs.Str.{bytes_eq};
ghost use Rattle.script.specs.Numbers.{number_of, read_in};

// The digits of a word, and their base.
fn numeral(word: &str) -> (&str, u32)
    ensures { cond (bytes_eq (take 2 word.now) (codes "0x"))
        ((result.0.now ≡ drop 2 word.now) × (result.1 ≡ 16))
        ((result.0.now ≡ word.now) × (result.1 ≡ 10)) }
{
    match word.strip_prefix("0x") {
        Some(digits) => (digits, 16),
        None => (word, 10),
    }
}

pub(crate) fn number(word: &str) -> Option<usize>
    ensures { result ≡ number_of 64 word.now }
{
    let (digits, base) = numeral(word);
    if digits.starts_with('+') {
        return None;
    }
    usize::from_str_radix(digits, base).ok()
}

pub(crate) fn identifier(word: &str) -> Option<u32>
    ensures { result ≡ number_of 32 word.now }
{
    u32::try_from(number(word)?).ok()
}

pub(crate) fn byte(word: &str) -> Option<u8>
    ensures { result ≡ number_of 8 word.now }
{
    u8::try_from(number(word)?).ok()
}
