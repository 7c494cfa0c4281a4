// An answer taken line by line.
use crate::flaw::AnswerErr;
use crate::item::Item;
use crate::places::{Place, is_end, rule_at};
use std::alloc::Global;
use std::marker::Model;

/// Reads the lines of an answer one by one, and keeps none of them.
///
/// Contracts see the number of the next line and its place. The number stays at 2^64 - 1 where more lines are taken.
#[derive(Debug, Drop)]
pub struct Forms {
    number: u64,
    place: Place,
}

impl Model for Forms {
    ghost use Rattle.std.specs.Prelude.{ℕ};
    ghost use Rattle.xn_proof.specs.Forms.{IsPlace};
    ghost use Rattle.xn_proof.specs.declared.places.Place.{Place};

    ghost Value = { ℕ × Place };

    ghost view = { λ s. (s.number, s.place) };

    ghost invariant = { λ s. IsPlace s.place };
}

impl Forms {
    ghost use Rattle.std.specs.Prelude.{◌≡◌, List, [], ◌∷◌, ◌++◌, IfOk, false};
    ghost use Rattle.xn_proof.specs.Forms.{Line, StandsFor, Takes, ends_with_end, is_end, next_at, start_state};
    ghost use Rattle.xn_proof.specs.declared.item.Item.{Item};

    /// No line was taken so far. No memory is taken.
    pub fn new() -> Forms
        ensures start { result ≡ start_state }
        ensures stands { StandsFor result [] [] }
    {
        Forms {
            number: 1,
            place: Place::Header,
        }
    }

    /// The number of the next line, from 1 on.
    pub fn number(&self) -> u64
        ensures { result ≡ self.now.0 }
    {
        self.number
    }

    /// What the next line says, given without the byte 10, and whether it has that byte. It refuses a line that isn't of the
    /// form that may stand there, has a number outside its range, is an edge that joins a node to itself, or stands behind the
    /// end. After a refusal, or where memory was wanting, the lines taken so far are as before.
    pub fn line(&mut self, alloc: Global, bytes: &[u8], ended: bool) -> Result<Item, AnswerErr>
        ensures takes { Takes result self.old self.new (next_at self.old (bytes.now, ended)) }
        ensures stands { (lines : List Line) (items : List Item) → StandsFor self.old lines items →
            IfOk result (λ item. StandsFor self.new (lines ++ (bytes.now, ended) ∷ []) (items ++ item ∷ [])) }
    {
        let (item, place) = rule_at(alloc, self.place, self.number, bytes, ended)?;
        self.number = self.number.saturating_add(1);
        self.place = place;
        Ok(item)
    }

    /// Whether the last line taken was the line `end`. No memory is taken.
    pub fn done(&self) -> bool
        ensures place { result ≡ is_end self.now.1 }
        ensures stands { (lines : List Line) (items : List Item) → StandsFor self.now lines items → result ≡ ends_with_end false items }
    {
        is_end(self.place)
    }
}

#[cfg(test)]
mod tests;
