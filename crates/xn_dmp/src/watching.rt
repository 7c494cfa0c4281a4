// For each face the fragments that watch it, as a chain of slots: 2k and 2k + 1 are the two of the fragment with the key k.
use crate::rounds::{read_or, write};
use std::alloc::{AllocError, Global};

/// No slot, or no face.
pub const NONE: u32 = u32::MAX;

/// Chains of slots. A slot stands in one chain at most.
#[derive(Drop)]
pub struct Watching {
    /// The first slot of each face.
    first: Vec<u32>,
    /// The slots after and before each slot, in its chain.
    after: Vec<u32>,
    before: Vec<u32>,
}

impl Watching {
    /// No face.
    pub fn new(alloc: Global) -> Watching {
        Watching {
            first: Vec::new(alloc),
            after: Vec::new(alloc),
            before: Vec::new(alloc),
        }
    }

    /// One face more, the next number, which no slot watches.
    pub fn push_face(&mut self) -> Result<(), AllocError> {
        self.first.push(NONE)?;
        Ok(())
    }

    /// Room for two slots more.
    pub fn push_slots(&mut self) -> Result<(), AllocError> {
        self.after.push(NONE)?;
        self.after.push(NONE)?;
        self.before.push(NONE)?;
        self.before.push(NONE)?;
        Ok(())
    }

    /// How many slots have room.
    pub fn slots(&self) -> usize {
        self.after.len()
    }

    /// The first slot that watches a face, or none.
    pub fn first(&self, face: u32) -> u32 {
        read_or(&self.first, face, NONE)
    }

    /// The slot after another in its chain, or none.
    pub fn after(&self, slot: u32) -> u32 {
        read_or(&self.after, slot, NONE)
    }

    /// Lets a slot that stands in no chain watch a face, if there is one.
    pub fn watch(&mut self, face: u32, slot: u32) {
        if face == NONE {
            return;
        }
        let next = self.first(face);
        write(self.after.as_mut_slice(), slot, next);
        write(self.before.as_mut_slice(), slot, NONE);
        write(self.before.as_mut_slice(), next, slot);
        write(self.first.as_mut_slice(), face, slot);
    }

    /// Takes a slot out of the chain of the face that it watches, if there is one.
    pub fn leave(&mut self, face: u32, slot: u32) {
        if face == NONE {
            return;
        }
        let next = self.after(slot);
        let last = read_or(&self.before, slot, NONE);
        if last == NONE {
            write(self.first.as_mut_slice(), face, next);
        }
        write(self.after.as_mut_slice(), last, next);
        write(self.before.as_mut_slice(), next, last);
    }
}
