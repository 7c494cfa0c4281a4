// The program on the system that it runs on.
ghost use Rattle.std.specs.Prelude.{◌≡◌, IfErr, IfOk};
ghost use Rattle.std.specs.Process.{exit_status};
ghost use Rattle.xn_app.specs.Exits.{IsCode, Leaves};
ghost use Rattle.xn_app.specs.Status.{IsSilent};

use crate::progress::Teller;
use crate::running::run;
use crate::status::Status;
use crate::telling::tell;
use std::alloc::AllocError;
use std::env;
use std::io::{ErrorKind, IsTerminal};
use std::process::ExitCode;
use xn_cut::{OnesCutter, OrderCutter, RoundCutter};
use xn_cutter::Cutter;
use xn_io::{FileInput, Sink, StdSink};

/// All that the program does, by `start_on`, with the two outputs of the system.
pub fn start(rt: &HostRuntime) -> ExitCode
    ensures { IsCode (exit_status result) }
{
    let stderr = rt.stderr();
    start_on(rt, &mut StdSink::new(rt), &mut StdSink::new(&stderr))
}

/// All that the program does, by `run`, with the words and the files of the system, and whatever sinks are handed in.
///
/// While a search lasts it says how far it is, at most once a second, where the standard error of the system is a
/// terminal. That goes past the sinks: what the clause says of them holds with it and without.
pub fn start_on<K: Sink, E: Sink>(rt: &HostRuntime, out: &mut K, errors: &mut E) -> ExitCode
    ensures { Leaves
        (record {
          old = K.taken out.old;
          new = K.taken out.new;
          before = K.faults out.old;
          after = K.faults out.new;
        })
        (record {
          old = E.taken errors.old;
          new = E.taken errors.new;
          before = E.faults errors.old;
          after = E.faults errors.new;
        })
        (exit_status result) }
{
    ExitCode::from(ended(rt, out, errors))
}

// The exit code of `start_on`.
fn ended<K: Sink, E: Sink>(rt: &HostRuntime, out: &mut K, errors: &mut E) -> u8
    ensures { Leaves
        (record {
          old = K.taken out.old;
          new = K.taken out.new;
          before = K.faults out.old;
          after = K.faults out.new;
        })
        (record {
          old = E.taken errors.old;
          new = E.taken errors.new;
          before = E.faults errors.old;
          after = E.faults errors.new;
        })
        result }
{
    match words(rt) {
        Ok(words) => match searching(rt, &words, out, errors) {
            Ok(code) => code,
            Err(AllocError) => tell(Status::Memory, errors),
        },
        Err(end) => tell(end, errors),
    }
}

// The exit code of `start_on` with these words: `run` with the cutters of the search, and where standard error is a
// terminal with one that says there how far the search is. It fails before `run`, and only for want of memory.
fn searching<K: Sink, E: Sink>(
    rt: &HostRuntime,
    words: &[String],
    out: &mut K,
    errors: &mut E,
) -> Result<u8, AllocError>
    ensures runs { IfOk result (Leaves
        (record {
          old = K.taken out.old;
          new = K.taken out.new;
          before = K.faults out.old;
          after = K.faults out.new;
        })
        (record {
          old = E.taken errors.old;
          new = E.taken errors.new;
          before = E.faults errors.old;
          after = E.faults errors.new;
        })) }
    ensures out { IfErr result (λ _.
        (K.taken out.new ≡ K.taken out.old) × (K.faults out.new ≡ K.faults out.old)) }
    ensures errors { IfErr result (λ _.
        (E.taken errors.new ≡ E.taken errors.old) × (E.faults errors.new ≡ E.faults errors.old)) }
{
    let alloc = rt.alloc();
    let mut cutters: Vec<Box<dyn Cutter>> = Vec::with_capacity(alloc, 4)?;
    cutters.push(Box::new(alloc, OnesCutter::new())?)?;
    cutters.push(Box::new(alloc, RoundCutter::new())?)?;
    cutters.push(Box::new(alloc, OrderCutter::new())?)?;
    let stderr = rt.stderr();
    if stderr.is_terminal() {
        cutters.push(Box::new(alloc, Teller::new(*rt, stderr))?)?;
    }
    Ok(run(
        alloc,
        words,
        &mut FileInput::new(rt),
        out,
        &mut cutters,
        errors,
    ))
}

// The words of the system, or the end where it can't give them.
fn words(rt: &HostRuntime) -> Result<Vec<String>, Status>
    ensures { IfErr result IsSilent }
{
    match env::args(rt) {
        Ok(args) => args
            .collect::<Vec<String>>(rt.alloc())
            .map_err(|_| Status::Memory),
        Err(error) if error.kind() == ErrorKind::OutOfMemory => Err(Status::Memory),
        Err(_) => Err(Status::Words),
    }
}
