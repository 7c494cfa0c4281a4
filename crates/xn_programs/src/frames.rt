// The rows that bound in the state that a pending state comes from.
use std::alloc::{AllocError, Global};

/// For each pending state the rows that its program begins with. They are hints: whatever they are, what is
/// decided stands.
#[derive(Drop)]
pub struct Frames {
    // the number of crossings that the round is to prove
    crossings: u32,
    // the numbers of rows of all frames, and for each pending state, the first one last, where its own begin
    // and end
    numbers: Vec<u32>,
    frames: Vec<(usize, usize)>,
    // those of the first state of the round before
    root: Vec<u32>,
    is_at_root: bool,
}

impl Frames {
    /// No states.
    pub fn new(alloc: Global) -> Frames {
        Frames {
            crossings: 0,
            numbers: Vec::new(alloc),
            frames: Vec::new(alloc),
            root: Vec::new(alloc),
            is_at_root: false,
        }
    }

    /// The rows of the first pending state, which is no longer pending; of the first state of a round where
    /// another number of crossings is to be proved than before.
    pub fn take(&mut self, alloc: Global, crossings: u32) -> Result<Vec<u32>, AllocError> {
        self.is_at_root = crossings != self.crossings;
        if self.is_at_root {
            self.crossings = crossings;
            self.numbers.clear();
            self.frames.clear();
            return Vec::from_slice(alloc, self.root.as_slice());
        }
        let (start, end) = self.frames.pop().unwrap_or((0, 0));
        let numbers = self.numbers.as_slice().get(start..end).unwrap_or(&[]);
        let taken = Vec::from_slice(alloc, numbers)?;
        let (_, left) = self.frames.last().copied().unwrap_or((0, 0));
        self.numbers.truncate(left);
        Ok(taken)
    }

    /// So many states are pending before the others, each with these rows.
    pub fn push(&mut self, numbers: &[u32], count: usize) -> Result<(), AllocError> {
        if self.is_at_root {
            self.root.clear();
            self.root.extend_from_slice(numbers)?;
        }
        let start = self.numbers.len();
        if count > 0 {
            self.numbers.extend_from_slice(numbers)?;
        }
        let end = self.numbers.len();
        for _ in 0..count {
            self.frames.push((start, end))?;
        }
        Ok(())
    }
}
