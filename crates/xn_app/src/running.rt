// A run of the program, with what is said of its end.
ghost use Rattle.std.specs.Prelude.{◌≡◌, List, ℕ, Some, IfSome};
ghost use Rattle.xn_io.specs.Input.{bytes_of};
ghost use Rattle.xn_command.specs.Gives.{words_request};
ghost use Rattle.xn_command.specs.Request.{check, sample, solve};
ghost use Rattle.xn_app.specs.Ends.{SaysBounds, SaysCrossingNumber, SaysSampleNumber};
ghost use Rattle.xn_app.specs.Exits.{Exits};

use crate::telling::tell;
use crate::top_call::top;
use std::alloc::Global;
use xn_cutter::Cutter;
use xn_io::{Input, Sink};

/// Does all that the program does, by `top`, says on a sink of errors why it ended so, and gives the exit code.
///
/// The input, the sinks and the cutters are whatever is handed in, as for `top`.
pub fn run<I: Input, K: Sink, E: Sink>(
    alloc: Global,
    words: &[String],
    input: &mut I,
    out: &mut K,
    cutters: &mut Vec<Box<dyn Cutter>>,
    errors: &mut E,
) -> u8
    // There is an end of which all holds that `top` says, and code and line are those of this end.
    ensures exits { Exits (words_request words.now)
        (record {
          told = I.told input.old;
          name = I.name input.new;
          before = I.faults input.old;
          after = I.faults input.new;
          failed = I.failed input.new;
          got = I.got input.new;
        })
        (record {
          old = K.taken out.old;
          new = K.taken out.new;
          before = K.faults out.old;
          after = K.faults out.new;
        })
        (record {
          old = E.taken errors.old;
          new = E.taken errors.new;
          before = E.faults errors.old;
          after = E.faults errors.new;
        })
        result }

    // What the code 0 of `check` means.
    ensures bounds { (graph answer : List ℕ) → words_request words.now ≡ Some (check graph answer) → result ≡ 0
        → IfSome (I.told input.old)
        (λ files. SaysBounds (bytes_of files graph) (K.taken out.old) (K.taken out.new)) }

    // And what that of `solve` means.
    ensures number { (graph : List ℕ) (budget : ℕ) → words_request words.now ≡ Some (solve graph budget) → result ≡ 0
        → IfSome (I.told input.old)
        (λ files. SaysCrossingNumber (bytes_of files graph) budget (K.taken out.old) (K.taken out.new)) }

    // And that of `sample`, which doesn't touch the input.
    ensures sample_number { (nodes budget : ℕ) → words_request words.now ≡ Some (sample nodes budget) → result ≡ 0
        → SaysSampleNumber nodes budget (K.taken out.old) (K.taken out.new) }
    ensures unread { (nodes budget : ℕ) → words_request words.now ≡ Some (sample nodes budget) → input.new ≡ input.old }
{
    let end = top(alloc, words, input, out, cutters);
    tell(end, errors)
}
