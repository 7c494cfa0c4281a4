// All that the program does.
ghost use Rattle.std.specs.Prelude.{◌≡◌, ◌⊎◌, List, ℕ, Some, IfOk, IfErr, IfSome, IfNone};
ghost use Rattle.xn_io.specs.Causes.{Rose};
ghost use Rattle.xn_io.specs.Input.{bytes_of};
ghost use Rattle.xn_command.specs.Gives.{IsWithinLimits, request_of_command, words_request};
ghost use Rattle.xn_command.specs.Request.{check, draw, examine, sample, solve};
ghost use Rattle.xn_app.specs.Ends.{Finishes, Quits, Ran, RanAlone, SaysBounds, SaysCrossingNumber, SaysDrawing, SaysSampleNumber, SaysSampleUndecided, SaysShown, SaysUndecided, Told};
ghost use Rattle.xn_app.specs.Files.{IsFine, IsLast, IsLastBegun, Shows, WithFile, WithoutFile};
ghost use Rattle.xn_app.specs.Outcome.{AreOneEnd, ComesAlone, ComesTo, Outcome, Sampled};
ghost use Rattle.xn_app.specs.Status.{IsAside, IsEarly, IsJudgedEnd, IsSilent, IsStarted, IsVerdictEnd};

use crate::files::{read_both, read_file, read_one};
use crate::judging::{checked, drawn, examined};
use crate::sampling::sampled;
use crate::searching::searched;
use crate::status::Status;
use std::alloc::Global;
use xn_check::laws::{accepted_bounds, drawn_texts, one_outcome, seen_texts};
use xn_command::{Command, WordsErr, read_words};
use xn_cutter::Cutter;
use xn_io::{Input, Sink, write_all};

/// Does all that the program does: reads the words, reads the files that they name, searches a graph or judges an
/// answer, and writes what belongs to that.
///
/// The words begin with the program's name. The input and the sink are whatever is handed in: what the clauses say
/// of files and of bytes written holds where the input tells its files and the sink what it took.
/// The cutters help a search to decide more within its budget: each clause holds whatever they are, also where there is
/// none.
pub fn top<I: Input, K: Sink>(
    alloc: Global,
    words: &[String],
    input: &mut I,
    out: &mut K,
    cutters: &mut Vec<Box<dyn Cutter>>,
) -> Status
    // Words that ask for nothing are refused, unless memory is wanting; and no others.
    ensures no_words { IfNone (words_request words.now) ((result ≡ Status.Words) ⊎ (result ≡ Status.Memory)) }
    ensures words { IfSome (words_request words.now) (λ asked. (result ≡ Status.Words) → ⊥) }

    // The end is one that the files lead to, or one of a fault, of a file of too many bytes, or of want of memory.
    ensures ran { Told (words_request words.now) (I.told input.old)
        (λ asked files. Ran (ComesTo files asked) result (K.taken out.old) (K.taken out.new)) }

    // And where the files lead to an end, it is this one, but for those: a search alone may be done or undecided, as
    // its answer is.
    ensures exact { Told (words_request words.now) (I.told input.old)
        (λ asked files. (outcome : Outcome) → ComesTo files asked outcome → IsAside result ⊎ AreOneEnd asked result outcome.0) }

    // What Done means: an accepted answer, whatever it is, bounds the crossing number of its graph from both sides;
    // what is examined or shown is a drawing.
    ensures bounds { (graph answer : List ℕ) → words_request words.now ≡ Some (check graph answer) → result ≡ Status.Done
        → IfSome (I.told input.old)
        (λ files. SaysBounds (bytes_of files graph) (K.taken out.old) (K.taken out.new)) }
    ensures drawing { (answer : List ℕ) → words_request words.now ≡ Some (examine answer) → result ≡ Status.Done
        → IfSome (I.told input.old)
        (λ files. SaysDrawing (bytes_of files answer) (K.taken out.old) (K.taken out.new)) }
    ensures shown { (graph answer : List ℕ) → words_request words.now ≡ Some (draw graph answer) → result ≡ Status.Done
        → IfSome (I.told input.old)
        (λ files. SaysShown (bytes_of files graph) (bytes_of files answer) (K.taken out.old) (K.taken out.new)) }

    // What `solve` means: where it is done, an answer was written whose bounds are both the crossing number; where it
    // is undecided, one whose bounds differ, and the budget, all of it spent, was below the node limit.
    ensures number { (graph : List ℕ) (budget : ℕ) → words_request words.now ≡ Some (solve graph budget)
        → result ≡ Status.Done → IfSome (I.told input.old)
        (λ files. SaysCrossingNumber (bytes_of files graph) budget (K.taken out.old) (K.taken out.new)) }
    ensures undecided { (graph : List ℕ) (budget lower upper spent : ℕ) → words_request words.now ≡ Some (solve graph budget)
        → result ≡ Status.Undecided lower upper spent → IfSome (I.told input.old)
        (λ files. SaysUndecided (bytes_of files graph) budget lower upper spent (K.taken out.old) (K.taken out.new)) }

    // What `sample` means, which has no file: it is done or undecided, or a write failed, or memory was wanting, and the
    // input isn't touched.
    ensures alone { (nodes budget : ℕ) → words_request words.now ≡ Some (sample nodes budget)
        → RanAlone (Sampled budget nodes) result (K.taken out.old) (K.taken out.new) }
    ensures unread { (nodes budget : ℕ) → words_request words.now ≡ Some (sample nodes budget) → input.new ≡ input.old }

    // Where it is done, the line was written of an answer for the sample graph whose bounds are both its crossing number;
    // where it is undecided, of one whose bounds differ, and the budget, all of it spent, was below the node limit.
    ensures sample_number { (nodes budget : ℕ) → words_request words.now ≡ Some (sample nodes budget)
        → result ≡ Status.Done → SaysSampleNumber nodes budget (K.taken out.old) (K.taken out.new) }
    ensures sample_undecided { (nodes budget lower upper spent : ℕ) → words_request words.now ≡ Some (sample nodes budget)
        → result ≡ Status.Undecided lower upper spent
        → SaysSampleUndecided nodes budget lower upper spent (K.taken out.old) (K.taken out.new) }

    // What the input and the sink show at the end.
    ensures shows { IfSome (words_request words.now) (λ asked. WithFile asked
        (Shows (I.told input.old) (I.name input.new) (I.faults input.old) (I.faults input.new)
        (I.failed input.new) (I.got input.new) result)) }
    ensures begun { IfSome (words_request words.now)
        (λ asked. IsStarted result → IsLastBegun (I.told input.old) (I.name input.new) asked) }
    ensures last { IfSome (words_request words.now)
        (λ asked. IsJudgedEnd result → IsLast (I.name input.new) asked) }
    ensures write { result ≡ Status.Write → Rose (K.faults out.old) (K.faults out.new) }
    ensures untouched { IsSilent result → (K.taken out.new ≡ K.taken out.old) × (K.faults out.new ≡ K.faults out.old) }
{
    accepted_bounds();
    drawn_texts();
    one_outcome();
    seen_texts();
    let command = match read_words(alloc, words) {
        Ok(command) => command,
        Err(WordsErr::Refused) => return Status::Words,
        Err(WordsErr::Memory) => return Status::Memory,
    };
    match work(alloc, command, input, cutters) {
        Ok((status, output)) => finish(status, &output, out),
        Err(status) => status,
    }
}

// The end that a command comes to and the bytes that belong to it, or an earlier end.
fn work<I: Input>(
    alloc: Global,
    command: Command,
    input: &mut I,
    cutters: &mut Vec<Box<dyn Cutter>>,
) -> Result<(Status, Vec<u8>), Status>
    requires small { IsWithinLimits command }
    ensures comes { IfOk result (λ x. IfSome (I.told input.old)
        (λ files. ComesTo files (request_of_command command) (x.0, x.1.items))) }
    ensures alone { IfOk result (λ x. ComesAlone (request_of_command command) (x.0, x.1.items)) }
    ensures judged { IfOk result (λ x. IsVerdictEnd x.0) }
    ensures quits { IfErr result (λ end. IfSome (I.told input.old)
        (λ files. Quits (ComesTo files (request_of_command command)) end)) }
    ensures early { IfErr result IsEarly }
    ensures wanting { WithoutFile (request_of_command command) (IfErr result (λ end. end ≡ Status.Memory)) }
    ensures unread { WithoutFile (request_of_command command) (input.new ≡ input.old) }
    ensures fine { WithFile (request_of_command command) (IfOk result (λ x. IsFine (I.failed input.new) (I.got input.new))) }
    ensures shows { IfErr result (Shows (I.told input.old) (I.name input.new) (I.faults input.old) (I.faults input.new)
        (I.failed input.new) (I.got input.new)) }
    ensures begun { IsLastBegun (I.told input.old) (I.name input.new) (request_of_command command) }
    ensures last { IfOk result (λ x. IsLast (I.name input.new) (request_of_command command)) }
{
    match command {
        Command::Solve { graph, budget } => {
            let read = read_one(alloc, input, graph)?;
            Ok(searched(alloc, &read, budget, cutters)?)
        }
        Command::Sample { nodes, budget } => Ok(sampled(alloc, nodes, budget, cutters)?),
        Command::Examine { answer } => {
            let text = read_file(alloc, input, answer)?;
            Ok(examined(alloc, &text)?)
        }
        Command::Check { graph, answer } => {
            let (read, text) = read_both(alloc, input, graph, answer)?;
            Ok(checked(alloc, &read, &text)?)
        }
        Command::Draw { graph, answer } => {
            let (read, text) = read_both(alloc, input, graph, answer)?;
            Ok(drawn(alloc, &read, &text)?)
        }
    }
}

// Writes the bytes that belong to an end.
fn finish<K: Sink>(status: Status, output: &[u8], out: &mut K) -> Status
    ensures finishes { Finishes status output.now (K.taken out.old) (K.taken out.new)
        (K.faults out.old) (K.faults out.new) result }
{
    match write_all(out, output) {
        Ok(()) => status,
        Err(_) => Status::Write,
    }
}
