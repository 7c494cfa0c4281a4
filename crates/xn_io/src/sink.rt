// A sink of bytes: what it took, and how often it failed.
ghost use Rattle.std.specs.Prelude.{List, ℕ, Option};
ghost use Rattle.std.specs.Io.{WritesAtMost};
ghost use Rattle.std.specs.Io.KnownBytes.{WriteAppends};
ghost use Rattle.xn_io.specs.Causes.{HasCause};
ghost use Rattle.xn_io.specs.Sink.{CountsStuck};

use crate::Failed;

/// What the program writes to.
pub trait Sink {
    /// How often a call failed: a count that never falls.
    ghost faults: { Self → ℕ };

    /// The bytes that it took, where it tells them.
    ghost taken: { Self → Option (List ℕ) };

    /// Takes bytes from the front of the piece, and says how many. At `Failed` it took none.
    fn write(&mut self, piece: &[u8]) -> Result<usize, Failed>
        ensures bound { WritesAtMost result piece.now }
        ensures taken { WriteAppends (taken self.old) (taken self.new) result piece.now }
        ensures stuck { CountsStuck (faults self.old) (faults self.new) result piece.now }
        ensures cause { HasCause (faults self.old) (faults self.new) result };
}
