// What is left of a text, taken line by line.
ghost use Rattle.std.specs.Prelude.{◌≡◌};
ghost use Rattle.xn_proof.specs.Reading.{Reads, line_at, numbers_at};

use crate::flaw::{AnswerErr, syntax};
use crate::numbers::{Numbers, keyed_numbers};
use std::marker::Model;
use xn_text::Lines;

/// What is left of a text, taken line by line. Contracts see the number of the next line, from 1 on, and the bytes.
#[derive(Drop)]
pub struct Reader<'a> {
    number: u64,
    text: &'a [u8],
}

impl<'a> Model for Reader<'a> {
    ghost use Rattle.std.specs.Prelude.{ℕ, List, length, ◌+◌, ◌<◌, ◌^◌};

    ghost Value = { ℕ × List ℕ };

    ghost view = { λ s. (s.number, s.text.now) };

    ghost invariant = { λ s. s.number + length s.text.now < 2 ^ 64 };
}

impl<'a> Reader<'a> {
    /// All of a text. No memory is taken.
    pub fn new(text: &'a [u8]) -> Reader<'a>
        ensures { result ≡ (1, text.now) }
    {
        Reader { number: 1, text }
    }

    /// The number of the next line.
    pub fn number(&self) -> u64
        ensures { result ≡ self.now.0 }
    {
        self.number
    }

    /// The bytes that are left.
    pub fn rest(&self) -> &'a [u8]
        ensures { result.now ≡ self.now.1 }
    {
        self.text
    }

    /// The next line, which has to be ended, and its number.
    pub fn line(&mut self) -> Result<(u64, &'a [u8]), AnswerErr>
        ensures { Reads (λ x. (x.0, x.1.now)) result self.new (line_at self.old) }
    {
        let number = self.number;
        let text = self.text;
        match Lines::new(text).next() {
            Some(line) if line.ended => {
                self.number = number + 1;
                self.text = &text[line.bytes.len() + 1..];
                Ok((number, line.bytes))
            }
            _ => Err(syntax(number)),
        }
    }

    /// The numbers of the next line, which begins with the key, and the line's number.
    #[tactic(auto, unfolding(crate::specs::Reading::numbers_at))]
    pub(crate) fn numbers(&mut self, key: &[u8]) -> Result<(u64, Numbers<'a>), AnswerErr>
        ensures { Reads (λ x. x) result self.new (numbers_at key.now self.old) }
    {
        let (number, line) = self.line()?;
        let values = keyed_numbers(key, number, line)?;
        Ok((number, values))
    }
}
