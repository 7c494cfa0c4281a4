// What a run of bytes is.
ghost use Rattle.std.specs.Prelude.{◌≡◌, ◌^◌, ◌<◌, ◌≤◌, true, IfSome, MatchOption, length, position};
ghost use Rattle.std.specs.List.{list_all};
ghost use Rattle.std.specs.Char.{is_ascii_digit};
ghost use Rattle.std.specs.Str.Parse.{digits_value};
ghost use Rattle.xn_gml.specs.Runs.{is_letter, is_word_byte, is_word, key_of, unsigned, is_digits, is_dot, is_decimal, is_e, is_scaled, signed, integer_of, kind_of_run};

use crate::token::{Key, Kind};

/// What a run is: a word, a number, or malformed.
#[tactic(auto, unfolding(crate::specs::Runs::kind_of_run))]
pub fn kind_of_run(run: &[u8]) -> Kind
    ensures { result ≡ kind_of_run run.now }
{
    if is_word(run) {
        Kind::Word(key_of(run))
    } else if is_scaled(unsigned(run)) {
        Kind::Number(integer_of(run))
    } else {
        Kind::Malformed
    }
}

fn is_letter(byte: u8) -> bool
    ensures { result ≡ is_letter byte }
{
    byte.is_ascii_alphabetic() || byte == b'_'
}

#[tactic(auto, unfolding(crate::specs::Runs::is_word))]
fn is_word(run: &[u8]) -> bool
    ensures { result ≡ is_word run.now }
{
    !run.is_empty() && is_letter(run[0]) && all_word_bytes(run)
}

fn all_word_bytes(run: &[u8]) -> bool
    ensures { result ≡ list_all is_word_byte run.now }
{
    run.iter()
        .all(|byte| is_letter(*byte) || byte.is_ascii_digit())
}

#[tactic(auto, unfolding(crate::specs::Runs::key_of))]
fn key_of(word: &[u8]) -> Key
    ensures { result ≡ key_of word.now }
{
    if word == b"graph".as_slice() {
        Key::Graph
    } else if word == b"node".as_slice() {
        Key::Node
    } else if word == b"edge".as_slice() {
        Key::Edge
    } else if word == b"id".as_slice() {
        Key::Id
    } else if word == b"source".as_slice() {
        Key::Source
    } else if word == b"target".as_slice() {
        Key::Target
    } else {
        Key::Other
    }
}

// What follows an optional sign.
#[tactic(auto, unfolding(crate::specs::Runs::unsigned))]
fn unsigned(run: &[u8]) -> &[u8]
    ensures { result.now ≡ unsigned run.now }
{
    if !run.is_empty() && (run[0] == b'+' || run[0] == b'-') {
        run.split_at(1).1
    } else {
        run
    }
}

fn all_digits(run: &[u8]) -> bool
    ensures { result ≡ list_all is_ascii_digit run.now }
{
    run.iter().all(|byte| byte.is_ascii_digit())
}

#[tactic(auto, unfolding(crate::specs::Runs::is_digits))]
fn is_digits(run: &[u8]) -> bool
    ensures { result ≡ is_digits run.now }
{
    !run.is_empty() && all_digits(run)
}

// The place of the first `.`.
fn find_dot(run: &[u8]) -> Option<usize>
    ensures value { result ≡ position is_dot run.now }
    ensures within { IfSome result (λ n. n < length run.now) }
{
    run.iter().position(|byte| *byte == b'.')
}

// The place of the first `E` or `e`.
fn find_e(run: &[u8]) -> Option<usize>
    ensures value { result ≡ position is_e run.now }
    ensures within { IfSome result (λ n. n < length run.now) }
{
    run.iter().position(|byte| *byte == b'E' || *byte == b'e')
}

// Digits, optionally `.` and digits, at least one digit in all.
#[tactic(auto, unfolding(crate::specs::Runs::is_decimal))]
fn is_decimal(run: &[u8]) -> bool
    ensures { result ≡ is_decimal run.now }
{
    match find_dot(run) {
        None => is_digits(run),
        Some(dot) => {
            let whole = run.split_at(dot).0;
            let rest = run.split_at(dot + 1).1;
            all_digits(whole) && all_digits(rest) && run.len() > 1
        }
    }
}

// Such digits, optionally with an exponent.
#[tactic(auto, unfolding(crate::specs::Runs::is_scaled))]
fn is_scaled(run: &[u8]) -> bool
    ensures { result ≡ is_scaled run.now }
{
    match find_e(run) {
        None => is_decimal(run),
        Some(place) => {
            let digits = run.split_at(place).0;
            let exponent = unsigned(run.split_at(place + 1).1);
            is_decimal(digits) && is_digits(exponent)
        }
    }
}

// The value of digits, or `None` where it needs more than 64 bits.
fn value_of(digits: &[u8]) -> Option<u64>
    requires { list_all is_ascii_digit digits.now ≡ true }
    ensures { MatchOption result (2 ^ 64 ≤ digits_value 10 digits.now)
        (λ v. v ≡ digits_value 10 digits.now) }
{
    let mut value: u64 = 0;
    for digit in digits {
        let Some(tens) = value.checked_mul(10) else {
            return None;
        };
        let Some(next) = tens.checked_add(u64::from(*digit - b'0')) else {
            return None;
        };
        value = next;
    }
    Some(value)
}

// A sign and a value, where they fit 64 bits.
#[tactic(auto, unfolding(crate::specs::Runs::signed))]
fn signed(minus: bool, value: u64) -> Option<i64>
    ensures { result ≡ signed minus value }
{
    if minus {
        if value < 1 << 63 {
            Some(-(value as i64))
        } else if value == 1 << 63 {
            Some(i64::MIN)
        } else {
            None
        }
    } else if value < 1 << 63 {
        Some(value as i64)
    } else {
        None
    }
}

// The integer that a run is, where it fits 64 bits.
#[tactic(auto, unfolding(crate::specs::Runs::integer_of, crate::specs::Runs::is_digits))]
fn integer_of(run: &[u8]) -> Option<i64>
    ensures { result ≡ integer_of run.now }
{
    let digits = unsigned(run);
    if !is_digits(digits) {
        return None;
    }
    let minus = !run.is_empty() && run[0] == b'-';
    match value_of(digits) {
        Some(value) => signed(minus, value),
        None => None,
    }
}
