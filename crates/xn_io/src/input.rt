// An input of named files: what it gives, how often it failed, and what its calls leave.
ghost use Rattle.std.specs.Prelude.{◌≡◌, ◌+◌, ◌^◌, ◌≤◌, List, ℕ, Option, Some, Bool, false, IfOk, OnErr, IsSome, is_err};
ghost use Rattle.std.specs.Io.{ReadsAtMost};
ghost use Rattle.std.specs.String.{string_bytes};
ghost use Rattle.xn_io.specs.Causes.{HasCause};
ghost use Rattle.xn_io.specs.Input.{Files, BeginsFile, Gives};

/// A call of an input or a sink failed.
#[derive(Clone, Copy, Debug, PartialEq, Eq)]
pub struct Failed;

/// What the program reads from: files by their names, one at a time.
pub trait Input {
    /// How often a call failed: a count that never falls.
    ghost faults: { Self → ℕ };

    /// How many bytes the reads since the last `begin` gave.
    ghost got: { Self → ℕ };

    /// The files, where the input tells them.
    ghost told: { Self → Option Files };

    /// The bytes of the begun name that aren't read yet, where they are told.
    ghost left: { Self → Option (List ℕ) };

    /// The name that was begun last.
    ghost name: { Self → Option (List ℕ) };

    /// Whether a call failed since that name was begun, its `begin` included.
    ghost failed: { Self → Bool };

    /// Begins a name, to read it from its start. The name is kept, also where the call fails.
    fn begin(&mut self, file: String) -> Result<(), Failed>
        ensures name { name self.new ≡ Some (string_bytes file) }
        ensures got { got self.new ≡ 0 }
        ensures failed { failed self.new ≡ is_err result }
        ensures told { told self.new ≡ told self.old }
        ensures left { BeginsFile (told self.old) (string_bytes file) (left self.new) result }
        ensures cause { HasCause (faults self.old) (faults self.new) result };

    /// Puts the next bytes of the begun name into the front of the buffer, and says how many: none
    /// only at its end, or where the buffer is empty. A name may be read on until a call fails.
    fn read(&mut self, buf: &mut [u8]) -> Result<usize, Failed>
        requires begun { IsSome (name self.old) }
        requires fine { failed self.old ≡ false }
        requires room { got self.old ≤ 2 ^ 62 }
        ensures bound { ReadsAtMost result buf.new }
        ensures bytes { Gives (left self.old) (left self.new) result buf.new }
        ensures got { IfOk result (λ n. got self.new ≡ got self.old + n) }
        ensures got_kept { OnErr result (got self.new ≡ got self.old) }
        ensures failed { failed self.new ≡ is_err result }
        ensures name { name self.new ≡ name self.old }
        ensures told { told self.new ≡ told self.old }
        ensures cause { HasCause (faults self.old) (faults self.new) result };
}
