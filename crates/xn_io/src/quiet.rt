// An input and a sink that never fail.
ghost use Rattle.std.specs.Prelude.{◌≡◌, Some, None, false, length};
ghost use Rattle.xn_io.specs.Input.{entries};
ghost use Rattle.xn_io.specs.Shelf.{files_of, name_of, got_of, left_of};

use crate::shelf::Shelf;
use crate::{Failed, Input, Sink};

/// Files in memory, all told. A name that isn't listed has no bytes, and no call fails.
#[derive(Drop)]
pub struct QuietInput {
    shelf: Shelf,
}

impl QuietInput {
    /// A name has the bytes of its first entry.
    pub fn new(files: Vec<(String, Vec<u8>)>) -> QuietInput
        ensures told { ⟦<QuietInput as Input>⟧.told result ≡ Some (entries files.items) }
        ensures faults { ⟦<QuietInput as Input>⟧.faults result ≡ 0 }
        ensures name { ⟦<QuietInput as Input>⟧.name result ≡ None }
    {
        QuietInput {
            shelf: Shelf::new(files),
        }
    }
}

impl Input for QuietInput {
    ghost faults = { λ _. 0 };

    ghost got = { λ s. got_of s.shelf };

    ghost told = { λ s. Some (files_of s.shelf) };

    ghost left = { λ s. Some (left_of s.shelf) };

    ghost name = { λ s. name_of s.shelf };

    ghost failed = { λ _. false };

    fn begin(&mut self, file: String) -> Result<(), Failed> {
        self.shelf.begin(file);
        Ok(())
    }

    fn read(&mut self, buf: &mut [u8]) -> Result<usize, Failed> {
        Ok(self.shelf.read(buf.len(), buf))
    }
}

/// A sink that takes every piece whole, never fails and tells nothing of what it took.
#[derive(Drop)]
pub struct QuietSink;

impl QuietSink {
    /// Nothing is written.
    pub fn new() -> QuietSink
        ensures faults { ⟦<QuietSink as Sink>⟧.faults result ≡ 0 }
        ensures taken { ⟦<QuietSink as Sink>⟧.taken result ≡ None }
    {
        QuietSink
    }
}

impl Sink for QuietSink {
    ghost faults = { λ _. 0 };

    ghost taken = { λ _. None };

    fn write(&mut self, piece: &[u8]) -> Result<usize, Failed>
        ensures whole { result ≡ Ok (length piece.now) }
    {
        Ok(piece.len())
    }
}
