// Numbers, each in its one spelling.
ghost use Rattle.std.specs.Prelude.{◌≡◌, ◌+◌, ◌^◌, ◌<◌, ◌↔◌, ◌++◌, ℕ, OnOk, OnErr, decimal, length, vec_len, vec_capacity};
ghost use Rattle.std.specs.Fmt.{signed_decimal};
ghost use Rattle.std.specs.Char.{is_ascii_digit};
ghost use Rattle.std.specs.List.{list_all};
ghost use Rattle.xn_text.specs.Number.{IsBelow, IsLarge, IsNumber, is_number, word_number};

use itoa::Buffer;
use std::alloc::AllocError;

/// What number a word spells.
#[derive(Clone, Copy, Debug, PartialEq, Eq)]
pub enum WordNumber {
    /// The word is neither `0` nor a digit from 1 to 9 followed by digits.
    Not,
    /// The word is a number that the asked type cannot hold.
    Large,
    /// The word is the one spelling of this number.
    Is(u64),
}

/// The number of 64 bits that a word spells: `0`, or a digit from 1 to 9 followed by digits.
pub fn word_u64(word: &[u8]) -> WordNumber
    ensures value { result ≡ word_number (2 ^ 64) word.now }
    ensures not { (result ≡ WordNumber.Not) ↔ ¬ (IsNumber word.now) }
    ensures large { (result ≡ WordNumber.Large) ↔ IsLarge (2 ^ 64) word.now }

    // The one spelling of the number, which `put_u64` appends.
    ensures is { (n : ℕ) → n < 2 ^ 64 → (result ≡ WordNumber.Is n) ↔ (word.now ≡ decimal n) }
{
    number_up_to(u64::MAX, word)
}

/// The number of 32 bits that a word spells, of the same form.
pub fn word_u32(word: &[u8]) -> WordNumber
    ensures value { result ≡ word_number (2 ^ 32) word.now }
    ensures not { (result ≡ WordNumber.Not) ↔ ¬ (IsNumber word.now) }
    ensures large { (result ≡ WordNumber.Large) ↔ IsLarge (2 ^ 32) word.now }
    ensures is { (n : ℕ) → n < 2 ^ 32 → (result ≡ WordNumber.Is n) ↔ (word.now ≡ decimal n) }
    ensures below { IsBelow (2 ^ 32) result }
{
    number_up_to(u32::MAX as u64, word)
}

// The number that a word spells, or `Large` above the greatest that is asked for.
fn number_up_to(most: u64, word: &[u8]) -> WordNumber
    ensures { result ≡ word_number (most + 1) word.now }
{
    if !is_number(word) {
        return WordNumber::Not;
    }
    let mut value: u64 = 0;
    for digit in word {
        let Some(tens) = value.checked_mul(10) else {
            return WordNumber::Large;
        };
        let Some(next) = tens.checked_add(u64::from(*digit - b'0')) else {
            return WordNumber::Large;
        };
        value = next;
    }
    if value > most {
        return WordNumber::Large;
    }
    WordNumber::Is(value)
}

fn is_number(word: &[u8]) -> bool
    ensures { result ≡ is_number word.now }
{
    !word.is_empty() && all_digits(word) && (word[0] != b'0' || word.len() == 1)
}

fn all_digits(word: &[u8]) -> bool
    ensures { result ≡ list_all is_ascii_digit word.now }
{
    word.iter().all(|byte| byte.is_ascii_digit())
}

/// Appends the one spelling of a number.
pub fn put_u64(to: &mut Vec<u8>, n: u64) -> Result<(), AllocError>
    ensures ok { OnOk result (to.new.items ≡ to.old.items ++ decimal n) }
    ensures as_before { OnErr result (to.new.items ≡ to.old.items) }

    // Only the vector grows: where it has room, memory is not asked for.
    ensures full { OnErr result (vec_capacity to.old < vec_len to.old + length (decimal n)) }
{
    let mut buffer = Buffer::new();
    let digits = buffer.format(n);
    to.extend_from_slice(digits.as_bytes())
}

/// Appends the one spelling of a whole number, with `-` in front of a negative one.
pub fn put_i128(to: &mut Vec<u8>, n: i128) -> Result<(), AllocError>
    ensures ok { OnOk result (to.new.items ≡ to.old.items ++ signed_decimal n) }
    ensures as_before { OnErr result (to.new.items ≡ to.old.items) }
    ensures full { OnErr result (vec_capacity to.old < vec_len to.old + length (signed_decimal n)) }
{
    let mut buffer = Buffer::new();
    let spelling = buffer.format(n);
    to.extend_from_slice(spelling.as_bytes())
}
