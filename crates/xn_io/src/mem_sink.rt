// A sink in memory, with a room, a step and writes that fail.
ghost use Rattle.std.specs.Prelude.{◌≤◌, length, vec_capacity};

use crate::calls::Calls;
use crate::faults::count_fault;
use crate::{Failed, Sink};
use std::alloc::{AllocError, Global};

/// A sink with room for so many bytes, which tells what it took. A write takes at most a step, and
/// the writes that are listed fail.
#[derive(Drop)]
pub struct MemSink {
    taken: Vec<u8>,
    writes: Calls,
    room: usize,
    step: usize,
    faults: u64,
    ghost moves: { 1 ≤ step },
    ghost within: { length taken.items ≤ room },
    ghost holds: { room ≤ vec_capacity taken },
}

impl MemSink {
    ghost use Rattle.std.specs.Prelude.{◌≡◌, [], Some, IfOk};
    ghost use Rattle.xn_io.specs.Calls.{number_of, failing_of};
    ghost use Rattle.xn_io.specs.MemSink.{writes_of, room_of, step_of};

    /// Takes its memory. The writes are numbered from 0, and those whose numbers are in `fail` fail.
    /// So does a write of a piece that isn't empty where no room is left.
    pub fn new(
        alloc: Global,
        room: usize,
        step: usize,
        fail: Vec<u64>,
    ) -> Result<MemSink, AllocError>
        requires { 1 ≤ step }
        ensures taken { IfOk result (λ sink. ⟦<MemSink as Sink>⟧.taken sink ≡ Some []) }
        ensures faults { IfOk result (λ sink. ⟦<MemSink as Sink>⟧.faults sink ≡ 0) }
        ensures number { IfOk result (λ sink. number_of (writes_of sink) ≡ 0) }
        ensures fail { IfOk result (λ sink. failing_of (writes_of sink) ≡ fail.items) }
        ensures room { IfOk result (λ sink. room_of sink ≡ room) }
        ensures step { IfOk result (λ sink. step_of sink ≡ step) }
    {
        Ok(MemSink {
            taken: Vec::with_capacity(alloc, room)?,
            writes: Calls::new(fail),
            room,
            step,
            faults: 0,
        })
    }

    /// What it took.
    pub fn bytes(&self) -> &[u8]
        ensures { ⟦<MemSink as Sink>⟧.taken self.now ≡ Some result.now }
    {
        &self.taken
    }
}

impl Sink for MemSink {
    ghost use Rattle.std.specs.Prelude.{◌≡◌, ◌↔◌, IsErr, IfOk};
    ghost use Rattle.std.specs.Io.KnownBytes.{WriteAppends};
    ghost use Rattle.xn_io.specs.Causes.{HasCause};
    ghost use Rattle.xn_io.specs.MemSink.{taken_by, faults_of, amount_of, FailsToWrite, NumbersWrite};

    ghost faults = { faults_of };

    ghost taken = { taken_by };

    fn write(&mut self, piece: &[u8]) -> Result<usize, Failed>
        ensures taken { WriteAppends (taken_by self.old) (taken_by self.new) result piece.now }
        ensures cause { HasCause (faults_of self.old) (faults_of self.new) result }
        ensures fails { IsErr result ↔ FailsToWrite self.old piece.now }
        ensures amount { IfOk result (λ n. n ≡ amount_of self.old piece.now) }
        ensures numbered { NumbersWrite self.old self.new }
    {
        let left = self.room - self.taken.len();
        let is_full = left == 0 && !piece.is_empty();
        let fails = self.writes.next_fails();
        if fails || is_full {
            count_fault(&mut self.faults);
            return Err(Failed);
        }
        let count = piece.len().min(self.step).min(left);
        // The memory was taken at the start.
        self.taken.extend_from_slice(&piece[..count]).unwrap();
        Ok(count)
    }
}
