// Marks that are taken back all at once, and lists that are read and written where they have a place.
ghost use Rattle.std.specs.Prelude.{◌≡◌, length};

use std::alloc::{AllocError, Global};

/// Marks of numbers. A mark counts in the round in which it was set.
#[derive(Drop)]
pub struct Rounds {
    marks: Vec<u32>,
    round: u32,
}

impl Rounds {
    /// No mark on the numbers below n.
    pub fn new(alloc: Global, n: u32) -> Result<Rounds, AllocError> {
        Ok(Rounds {
            marks: vec![in alloc; 0; n as usize]?,
            round: 1,
        })
    }

    /// Takes all marks back.
    pub fn begin(&mut self) {
        if self.round == u32::MAX {
            clear(self.marks.as_mut_slice());
            self.round = 0;
        }
        self.round += 1;
    }

    /// Whether a number is marked.
    pub fn is_marked(&self, i: u32) -> bool {
        read(&self.marks, i) == self.round
    }

    /// Marks a number.
    pub fn mark(&mut self, i: u32) {
        write(self.marks.as_mut_slice(), i, self.round);
    }

    /// Takes the mark of a number back.
    pub fn unmark(&mut self, i: u32) {
        write(self.marks.as_mut_slice(), i, 0);
    }
}

// Sets all entries to 0.
fn clear(list: &mut [u32]) {
    for x in list {
        *x = 0;
    }
}

/// The entry at a place, or 0 where there is none.
pub fn read(list: &[u32], i: u32) -> u32 {
    read_or(list, i, 0)
}

/// The entry at a place, or a default where there is none.
pub fn read_or(list: &[u32], i: u32, default: u32) -> u32 {
    if (i as usize) < list.len() {
        list[i as usize]
    } else {
        default
    }
}

/// Sets the entry at a place, if there is one.
pub fn write(list: &mut [u32], i: u32, value: u32)
    ensures { length list.new ≡ length list.old }
{
    if (i as usize) < list.len() {
        list[i as usize] = value;
    }
}
