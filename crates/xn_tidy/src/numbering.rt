// Numbers for rows, in the order in which they are asked for.
ghost use Rattle.std.specs.Prelude.{◌≡◌, ◌<◌, ◌≤◌, ◌^◌, [], All, IfOk, length};
ghost use Rattle.xn_tidy.specs.Numbering.{HasNumber};

use std::alloc::{AllocError, Global};
use std::marker::Model;

/// Which of some rows have a number, and in which order they got it: it is seen as the number of rows and that order.
#[derive(Drop)]
pub struct Numbering {
    numbers: Vec<Option<u32>>,
    order: Vec<u32>,
}

impl Model for Numbering {
    ghost use Rattle.xn_tidy.specs.Numbering.{AreNumbered, Named, named_of};

    ghost Value = { Named };

    ghost view = { λ n. named_of n.numbers.items n.order.items };

    ghost invariant = { λ n. AreNumbered n.numbers.items n.order.items };
}

impl Numbering {
    /// No row has a number. It fails only for want of memory.
    pub fn new(alloc: Global, count: usize) -> Result<Numbering, AllocError>
        ensures count { IfOk result (λ n. n.count ≡ count) }
        ensures order { IfOk result (λ n. n.order ≡ []) }
    {
        Ok(Numbering {
            numbers: vec![in alloc; None; count]?,
            order: Vec::new(alloc),
        })
    }

    /// The number of a row: the next one where it had none. It fails only for want of memory.
    pub fn number_of(&mut self, i: u32) -> Result<u32, AllocError>
        requires below { i < self.old.count }
        requires few { self.old.count < 2 ^ 32 }
        ensures count { self.new.count ≡ self.old.count }
        ensures number { IfOk result (HasNumber self.old.order self.new.order i) }
    {
        if let Some(n) = self.numbers[i as usize] {
            return Ok(n);
        }
        let n = self.order.len() as u32;
        self.order.push(i)?;
        self.numbers[i as usize] = Some(n);
        Ok(n)
    }

    /// The rows that have a number, in its order.
    pub fn order(&self) -> &[u32]
        ensures order { result.now ≡ self.now.order }
        ensures below { All (λ i. i < self.now.count) self.now.order }
        ensures few { length self.now.order ≤ self.now.count }
    {
        self.order.as_slice()
    }
}
