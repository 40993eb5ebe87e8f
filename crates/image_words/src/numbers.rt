//! The numbers that words give.
ghost use Rattle.std.specs.Prelude.{◌≡◌, ◌^◌, ◌<◌, ◌≤◌, nat_lt, ℕ, List, Some, None, slice_index, IfSome, if◌then◌else◌};
ghost use Rattle.std.specs.Fmt.{decimal};
ghost use Rattle.std.specs.List.{list_all};
ghost use Rattle.std.specs.Str.Parse.{IsNumeral, digits_value};
ghost use Rattle.image_words.specs.Words.{family_of, is_family};
ghost use Rattle.units.specs.Digits.{is_hex_digit};

/// Whether a word begins with a byte above `0`, as digits do that have no sign and no zero in front.
fn begins_above_zero(word: &str) -> bool
    ensures { result ≡ nat_lt 0x30 (slice_index word.now 0) }
{
    !word.is_empty() && word.as_bytes()[0] > b'0'
}

/// The number that a word spells in decimal digits, with no sign and no zero in front.
pub fn number_of(word: &str) -> Option<u64>
    ensures some { IfSome result (λ n. word.now ≡ decimal n) }
    ensures only { (n : ℕ) → 1 ≤ n → n < 2 ^ 64 → word.now ≡ decimal n → result ≡ Some n }
{
    if begins_above_zero(word) {
        word.parse::<u64>().ok()
    } else {
        None
    }
}

fn is_hex_digit(byte: u8) -> bool
    ensures { result ≡ is_hex_digit byte }
{
    byte.is_ascii_digit() || (b'a' <= byte && byte <= b'f')
}

fn are_hex_digits(word: &[u8]) -> bool
    ensures { result ≡ list_all is_hex_digit word.now }
{
    word.iter().all(|byte| is_hex_digit(*byte))
}

fn is_family(word: &[u8]) -> bool
    ensures { result ≡ is_family word.now }
{
    word.len() == 8 && are_hex_digits(word)
}

/// The number that hexadecimal digits spell, if it has 32 bits.
fn hex_number(word: &str) -> Option<u32>
    requires { IsNumeral 16 word.now }
    ensures { result ≡ (if nat_lt (digits_value 16 word.now) (2 ^ 32) then Some (digits_value 16 word.now) else None) }
{
    u32::from_str_radix(word, 16).ok()
}

/// The number of a family, in eight lower-case hexadecimal digits.
pub fn family_of(word: &str) -> Option<u32>
    ensures { result ≡ family_of word.now }
{
    if is_family(word.as_bytes()) {
        hex_number(word)
    } else {
        None
    }
}
