// The numbers of a line, read where they are wanted.
ghost use Rattle.std.specs.Prelude.{◌≡◌, ◌==◌, [], ◌∷◌, IfNone, IfOk, IfSome, length, position};
ghost use Rattle.xn_text.specs.Pieces.{words_of};
ghost use Rattle.xn_proof.specs.Ranges.{first_of, no_form, one_of, two_of};
ghost use Rattle.xn_proof.specs.Reading.{Gives, each_at, has_key, keyed, number_of, value_at, values_of};

use crate::flaw::{AnswerErr, syntax};
use std::marker::Model;
use xn_text::{WordNumber, Words, word_u64};

/// The numbers that are left of a line, with `None` for one that passes 64 bits. They stay words of the line until they are
/// asked for, so no memory is taken, however many they are.
#[derive(Drop)]
pub struct Numbers<'a> {
    // The first so many words of these are left.
    words: &'a [u8],
    left: usize,
}

impl<'a> Model for Numbers<'a> {
    ghost use Rattle.std.specs.Prelude.{ℕ, List, Option, length, take, ◌≤◌};
    ghost use Rattle.xn_text.specs.Pieces.{words_of};
    ghost use Rattle.xn_proof.specs.Reading.{values_of};

    ghost Value = { List (Option ℕ) };

    ghost view = { λ s. values_of (take s.left (words_of s.words.now)) };

    ghost invariant = { λ s. s.left ≤ length (words_of s.words.now) };
}

impl<'a> Numbers<'a> {
    /// How many numbers are left.
    pub fn len(&self) -> usize
        ensures { result ≡ length self.now }
    {
        self.left
    }

    /// The same numbers once more.
    pub fn again(&self) -> Numbers<'a>
        ensures { result ≡ self.now }
    {
        Numbers {
            words: self.words,
            left: self.left,
        }
    }

    /// The next number, or `None` where no number is left.
    pub fn next(&mut self) -> Option<Option<u64>>
        ensures none { IfNone result ((self.old ≡ []) × (self.new ≡ [])) }
        ensures some { IfSome result (λ value. self.old ≡ value ∷ self.new) }
    {
        if self.left == 0 {
            return None;
        }
        let words = self.words;
        self.left -= 1;
        match find_space(words) {
            Some(at) => {
                self.words = &words[at + 1..];
                Some(number_of(&words[..at]))
            }
            None => Some(number_of(words)),
        }
    }

    /// The first number, and those after it. Where there is none, the line isn't of its form.
    pub fn first(&self, number: u64) -> Result<(Option<u64>, Numbers<'a>), AnswerErr>
        ensures { Gives (λ x. x) result (first_of number self.now) }
    {
        let mut rest = self.again();
        match rest.next() {
            Some(value) => Ok((value, rest)),
            None => Err(syntax(number)),
        }
    }

    /// Where a number is left, the line isn't of its form.
    #[tactic(auto, unfolding(crate::specs::Ranges::no_form))]
    pub fn none(&self, number: u64) -> Result<(), AnswerErr>
        ensures { Gives (λ x. x) result (no_form number self.now) }
    {
        match self.again().next() {
            Some(_) => Err(syntax(number)),
            None => Ok(()),
        }
    }

    /// The one number. Where there isn't just one, the line isn't of its form.
    pub fn one(&self, number: u64) -> Result<Option<u64>, AnswerErr>
        ensures { Gives (λ x. x) result (one_of number self.now) }
    {
        let mut rest = self.again();
        let Some(value) = rest.next() else {
            return Err(syntax(number));
        };
        match rest.next() {
            Some(_) => Err(syntax(number)),
            None => Ok(value),
        }
    }

    /// The two numbers. Where there aren't just two, the line isn't of its form.
    pub fn two(&self, number: u64) -> Result<(Option<u64>, Option<u64>), AnswerErr>
        ensures { Gives (λ x. x) result (two_of number self.now) }
    {
        let mut rest = self.again();
        let Some(first) = rest.next() else {
            return Err(syntax(number));
        };
        let Some(second) = rest.next() else {
            return Err(syntax(number));
        };
        match rest.next() {
            Some(_) => Err(syntax(number)),
            None => Ok((first, second)),
        }
    }
}

// The number that a word spells, or `None` where it passes 64 bits or is none.
fn number_of(word: &[u8]) -> Option<u64>
    ensures { result ≡ number_of word.now }
{
    match word_u64(word) {
        WordNumber::Is(n) => Some(n),
        _ => None,
    }
}

// The place of the first space.
fn find_space(bytes: &[u8]) -> Option<usize>
    ensures { result ≡ position (λ x. x == 32) bytes.now }
{
    bytes.iter().position(|x| *x == b' ')
}

/// Whether the first word of a line is the key.
pub fn has_key(key: &[u8], line: &[u8]) -> bool
    ensures { result ≡ has_key key.now (words_of line.now) }
{
    match Words::new(line).next() {
        Some(word) => word == key,
        None => false,
    }
}

/// The numbers after the first word of a line, which is the key. Where it is another word, or one after it is no number, the
/// line isn't of its form.
#[tactic(auto, unfolding(crate::specs::Reading::keyed))]
pub fn keyed_numbers<'a>(key: &[u8], number: u64, line: &'a [u8]) -> Result<Numbers<'a>, AnswerErr>
    ensures { Gives (λ x. x) result (keyed key.now number (words_of line.now)) }
{
    if !has_key(key, line) {
        return Err(syntax(number));
    }
    match find_space(line) {
        Some(at) => all_numbers(number, &line[at + 1..]),
        None => Ok(Numbers {
            words: line,
            left: 0,
        }),
    }
}

// All words, each of which is a number.
fn all_numbers<'a>(number: u64, line: &'a [u8]) -> Result<Numbers<'a>, AnswerErr>
    ensures { Gives (λ x. x) result (each_at (value_at number) (words_of line.now)) }
{
    let left = count_numbers(number, line)?;
    Ok(Numbers { words: line, left })
}

// How many words there are, each of which is a number.
fn count_numbers(number: u64, line: &[u8]) -> Result<usize, AnswerErr>
    ensures read { Gives (λ n. values_of (words_of line.now)) result (each_at (value_at number) (words_of line.now)) }
    ensures count { IfOk result (λ n. n ≡ length (words_of line.now)) }
{
    let mut words = Words::new(line);
    let mut count = 0;
    while let Some(word) = words.next() {
        match word_u64(word) {
            WordNumber::Not => return Err(syntax(number)),
            _ => count += 1,
        }
    }
    Ok(count)
}
