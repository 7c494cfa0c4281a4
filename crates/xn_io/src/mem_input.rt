// An input in memory, with calls that fail.
ghost use Rattle.std.specs.Prelude.{◌≤◌};

use crate::calls::Calls;
use crate::faults::count_fault;
use crate::shelf::Shelf;
use crate::{Failed, Input};

/// Files in memory, all told. A read gives at most a step, and the calls that are listed fail.
#[derive(Drop)]
pub struct MemInput {
    shelf: Shelf,
    calls: Calls,
    step: usize,
    faults: u64,
    failed: bool,
    ghost moves: { 1 ≤ step },
}

impl MemInput {
    ghost use Rattle.std.specs.Prelude.{◌≡◌, Some, None};
    ghost use Rattle.xn_io.specs.Calls.{number_of, failing_of};
    ghost use Rattle.xn_io.specs.Input.{entries};
    ghost use Rattle.xn_io.specs.MemInput.{calls_of, step_of};

    /// The calls of `begin` and `read` are numbered from 0, and those whose numbers are in `fail`
    /// fail. So does a `begin` of a name that isn't listed. A read gives at most `step` bytes.
    pub fn new(files: Vec<(String, Vec<u8>)>, step: usize, fail: Vec<u64>) -> MemInput
        requires { 1 ≤ step }
        ensures told { ⟦<MemInput as Input>⟧.told result ≡ Some (entries files.items) }
        ensures faults { ⟦<MemInput as Input>⟧.faults result ≡ 0 }
        ensures name { ⟦<MemInput as Input>⟧.name result ≡ None }
        ensures number { number_of (calls_of result) ≡ 0 }
        ensures fail { failing_of (calls_of result) ≡ fail.items }
        ensures step { step_of result ≡ step }
    {
        MemInput {
            shelf: Shelf::new(files),
            calls: Calls::new(fail),
            step,
            faults: 0,
            failed: false,
        }
    }
}

impl Input for MemInput {
    ghost use Rattle.std.specs.Prelude.{◌≡◌, ◌≤◌, ◌^◌, ◌↔◌, Some, false, is_err, IsErr, IsSome, IfOk, OnErr};
    ghost use Rattle.std.specs.String.{string_bytes};
    ghost use Rattle.xn_io.specs.Calls.{IsFailing};
    ghost use Rattle.xn_io.specs.Causes.{HasCause};
    ghost use Rattle.xn_io.specs.MemInput.{shelf_of, calls_of, faults_of, has_failed, amount_of, FailsToBegin, NumbersCall};
    ghost use Rattle.xn_io.specs.Shelf.{files_of, name_of, got_of, left_of, BeginsName, ReadsBytes};

    ghost faults = { faults_of };

    ghost got = { λ s. got_of (shelf_of s) };

    ghost told = { λ s. Some (files_of (shelf_of s)) };

    ghost left = { λ s. Some (left_of (shelf_of s)) };

    ghost name = { λ s. name_of (shelf_of s) };

    ghost failed = { has_failed };

    fn begin(&mut self, file: String) -> Result<(), Failed>
        ensures fails { IsErr result ↔ FailsToBegin self.old (string_bytes file) }
        ensures begins { BeginsName (shelf_of self.old) (shelf_of self.new) (string_bytes file) }
        ensures failed { has_failed self.new ≡ is_err result }
        ensures cause { HasCause (faults_of self.old) (faults_of self.new) result }
        ensures numbered { NumbersCall self.old self.new }
    {
        let is_listed = self.shelf.begin(file);
        let fails = self.calls.next_fails();
        self.failed = fails || !is_listed;
        if self.failed {
            count_fault(&mut self.faults);
            return Err(Failed);
        }
        Ok(())
    }

    fn read(&mut self, buf: &mut [u8]) -> Result<usize, Failed>
        requires begun { IsSome (name_of (shelf_of self.old)) }
        requires fine { has_failed self.old ≡ false }
        requires room { got_of (shelf_of self.old) ≤ 2 ^ 62 }
        ensures fails { IsErr result ↔ IsFailing (calls_of self.old) }
        ensures amount { IfOk result (λ n. n ≡ amount_of self.old buf.new) }
        ensures reads { IfOk result (λ n. ReadsBytes (shelf_of self.old) (shelf_of self.new) n buf.new) }
        ensures kept { OnErr result (shelf_of self.new ≡ shelf_of self.old) }
        ensures failed { has_failed self.new ≡ is_err result }
        ensures cause { HasCause (faults_of self.old) (faults_of self.new) result }
        ensures numbered { NumbersCall self.old self.new }
    {
        self.failed = self.calls.next_fails();
        if self.failed {
            count_fault(&mut self.faults);
            return Err(Failed);
        }
        Ok(self.shelf.read(self.step, buf))
    }
}
