//! The numbers and values of a script.
ghost use Rattle.std.specs.Prelude.{◌≡◌, ◌≤◌, ◌^◌, nat_lt, Some, None, if◌then◌else◌};
ghost use Rattle.std.specs.Char.{is_ascii_digit};
ghost use Rattle.std.specs.List.{list_all};
ghost use Rattle.std.specs.Str.Parse.{IsNumeral, digits_value};
ghost use Rattle.run_script.specs.Numbers.{is_decimal, is_value, number_of, value_of};
ghost use Rattle.units.specs.Digits.{is_hex_digit};

fn are_digits(word: &[u8]) -> bool
    ensures { result ≡ list_all is_ascii_digit word.now }
{
    word.iter().all(|byte| byte.is_ascii_digit())
}

fn is_decimal(word: &[u8]) -> bool
    ensures { result ≡ is_decimal word.now }
{
    !word.is_empty() && (word.len() == 1 || word[0] != b'0') && are_digits(word)
}

fn is_hex_digit(byte: u8) -> bool
    ensures { result ≡ is_hex_digit byte }
{
    byte.is_ascii_digit() || (b'a' <= byte && byte <= b'f')
}

fn are_hex_digits(word: &[u8]) -> bool
    ensures { result ≡ list_all is_hex_digit word.now }
{
    word.iter().all(|byte| is_hex_digit(*byte))
}

/// The number that digits spell in a radix, if it has 64 bits.
fn parsed(word: &[u8], radix: u32) -> Option<u64>
    requires numeral { IsNumeral radix word.now }
    requires low { 2 ≤ radix }
    requires high { radix ≤ 16 }
    ensures { result
        ≡ (if nat_lt (digits_value radix word.now) (2 ^ 64) then Some (digits_value radix word.now) else None) }
{
    match str::from_utf8(word) {
        Ok(text) => u64::from_str_radix(text, radix).ok(),
        Err(_) => None,
    }
}

/// The number that a word spells in decimal digits, without a leading zero.
pub fn number_of(word: &[u8]) -> Option<u64>
    ensures { result ≡ number_of word.now }
{
    if is_decimal(word) {
        parsed(word, 10)
    } else {
        None
    }
}

fn is_value(word: &[u8]) -> bool
    ensures { result ≡ is_value word.now }
{
    word.len() == 16 && are_hex_digits(word)
}

/// The value that a word of 16 lower-case hexadecimal digits spells.
pub fn value_of(word: &[u8]) -> Option<u64>
    ensures { result ≡ value_of word.now }
{
    if is_value(word) {
        parsed(word, 16)
    } else {
        None
    }
}
