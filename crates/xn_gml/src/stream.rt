// The tokens of a text, one after another.
ghost use Rattle.std.specs.Prelude.{◌≡◌, ◌+◌, ◌^◌, ◌<◌, ◌≤◌, [], ◌∷◌, IfNone, IfSome, length, drop, position, slice_index};
ghost use Rattle.std.specs.List.{position_or_len};
ghost use Rattle.xn_gml.specs.Tokens.{is_line_end, is_quote, ends_run, is_separator, quoted, begins, tokens_from, tokens_of};

use crate::runs::kind_of_run;
use crate::token::{Kind, Token};
use std::marker::Model;

/// The tokens of a text that are left.
///
/// Contracts see their list.
#[derive(Drop)]
pub struct Tokens<'a> {
    at: u64,
    rest: &'a [u8],
}

impl<'a> Model for Tokens<'a> {
    ghost use Rattle.std.specs.Prelude.{List, length, ◌+◌, ◌<◌, ◌^◌};
    ghost use Rattle.xn_gml.specs.declared.token.Token.{Token};
    ghost use Rattle.xn_gml.specs.Tokens.{tokens_from};

    ghost Value = { List Token };

    ghost view = { λ s. tokens_from 0 s.at s.rest.now };

    ghost invariant = { λ s. s.at + length s.rest.now < 2 ^ 64 };
}

impl<'a> Tokens<'a> {
    /// The tokens of a text. No memory is taken.
    #[tactic(auto, unfolding(crate::specs::Tokens::tokens_of))]
    pub fn new(text: &'a [u8]) -> Tokens<'a>
        ensures { result ≡ tokens_of text.now }
    {
        if text.starts_with(&[0xEF, 0xBB, 0xBF]) {
            Tokens {
                at: 3,
                rest: text.split_at(3).1,
            }
        } else {
            Tokens { at: 0, rest: text }
        }
    }

    /// The same tokens again.
    pub fn again(&self) -> Tokens<'a>
        ensures { result ≡ self.now }
    {
        Tokens {
            at: self.at,
            rest: self.rest,
        }
    }

    /// How many tokens there are at most: the number of bytes that are left.
    pub fn left(&self) -> usize
        ensures most { length self.now ≤ result }
        ensures small { result < 2 ^ 63 }
    {
        self.rest.len()
    }

    /// The next token, or `None` where none is left.
    pub fn next(&mut self) -> Option<Token>
        ensures none { IfNone result ((self.old ≡ []) × (self.new ≡ [])) }
        ensures some { IfSome result (λ t. self.old ≡ t ∷ self.new) }
    {
        let (token, at, rest) = next_token(self.at, self.rest)?;
        self.at = at;
        self.rest = rest;
        Some(token)
    }
}

// The first token from an offset on, the offset after it, and the bytes from there on.
fn next_token(from: u64, bytes: &[u8]) -> Option<(Token, u64, &[u8])>
    requires { from + length bytes.now < 2 ^ 64 }
    ensures none { IfNone result (tokens_from 0 from bytes.now ≡ []) }
    ensures some { IfSome result (λ p. tokens_from 0 from bytes.now ≡ p.0 ∷ tokens_from 0 p.1 p.2.now) }
    ensures place { IfSome result (λ p. p.1 + length p.2.now ≡ from + length bytes.now) }
{
    let mut at = from;
    let mut rest = bytes;
    while !rest.is_empty() {
        let (token, more) = begins(at, rest);
        at += 1 + more as u64;
        rest = rest.split_at(1 + more).1;
        match token {
            Some(token) => return Some((token, at, rest)),
            None => {}
        }
    }
    None
}

// The token that begins with the first byte, and how many bytes after it belong to it or are skipped.
#[tactic(auto, unfolding(crate::specs::Tokens::begins))]
fn begins(at: u64, bytes: &[u8]) -> (Option<Token>, usize)
    requires some { 0 < length bytes.now }
    requires place { at + length bytes.now < 2 ^ 64 }
    ensures value { result ≡ begins at (slice_index bytes.now 0) (drop 1 bytes.now) }
    ensures within { result.1 + 1 ≤ length bytes.now }
{
    let first = bytes[0];
    let after = bytes.split_at(1).1;
    if is_separator(first) {
        (None, 0)
    } else if first == b'#' {
        (None, line_length(after))
    } else if first == b'[' {
        let kind = Kind::Open;
        (Some(Token { at, kind }), 0)
    } else if first == b']' {
        let kind = Kind::Close;
        (Some(Token { at, kind }), 0)
    } else if first == b'"' {
        quoted(at, after)
    } else {
        let more = run_length(after);
        let kind = kind_of_run(bytes.split_at(1 + more).0);
        (Some(Token { at, kind }), more)
    }
}

// A string, given the bytes after its `"`.
#[tactic(auto, unfolding(crate::specs::Tokens::quoted))]
fn quoted(at: u64, after: &[u8]) -> (Option<Token>, usize)
    requires { at + 1 + length after.now < 2 ^ 64 }
    ensures value { result ≡ quoted at after.now }
    ensures within { result.1 ≤ length after.now }
{
    match find_quote(after) {
        Some(place) => {
            let kind = Kind::Quoted;
            (Some(Token { at, kind }), place + 1)
        }
        None => {
            let at = at + 1 + after.len() as u64;
            let kind = Kind::Malformed;
            (Some(Token { at, kind }), after.len())
        }
    }
}

fn is_separator(byte: u8) -> bool
    ensures { result ≡ is_separator byte }
{
    byte == b' ' || byte == b'\t' || byte == b'\r' || byte == b'\n'
}

// The place of the first `"`.
fn find_quote(bytes: &[u8]) -> Option<usize>
    ensures value { result ≡ position is_quote bytes.now }
    ensures within { IfSome result (λ n. n < length bytes.now) }
{
    bytes.iter().position(|byte| *byte == b'"')
}

fn find_line_end(bytes: &[u8]) -> Option<usize>
    ensures value { result ≡ position is_line_end bytes.now }
    ensures within { IfSome result (λ n. n < length bytes.now) }
{
    bytes
        .iter()
        .position(|byte| *byte == b'\n' || *byte == b'\r')
}

fn find_run_end(bytes: &[u8]) -> Option<usize>
    ensures value { result ≡ position ends_run bytes.now }
    ensures within { IfSome result (λ n. n < length bytes.now) }
{
    bytes.iter().position(|byte| ends_run(*byte))
}

// How many bytes come before the line ends.
fn line_length(bytes: &[u8]) -> usize
    ensures value { result ≡ position_or_len is_line_end bytes.now }
    ensures within { result ≤ length bytes.now }
{
    find_line_end(bytes).unwrap_or(bytes.len())
}

// How many bytes go on with a run.
fn run_length(bytes: &[u8]) -> usize
    ensures value { result ≡ position_or_len ends_run bytes.now }
    ensures within { result ≤ length bytes.now }
{
    find_run_end(bytes).unwrap_or(bytes.len())
}

fn ends_run(byte: u8) -> bool
    ensures { result ≡ ends_run byte }
{
    is_separator(byte) || byte == b'[' || byte == b']' || byte == b'"'
}
