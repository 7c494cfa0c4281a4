// Why no answer is given: a flaw of its text, or want of memory.
ghost use Rattle.std.specs.Prelude.{◌≡◌};
ghost use Rattle.xn_proof.specs.Reading.{loop_flaw, out_of_range, syntax, trailing};
ghost use Rattle.xn_proof.specs.declared.flaw.AnswerErr.TheVariants.{Memory};

use std::alloc::{AllocError, AllocFailed};
use xn_kinds::{Flaw, FlawKind};

/// Why no answer is given.
#[derive(Clone, Copy, Debug, PartialEq, Eq)]
pub enum AnswerErr {
    /// The text is refused for this flaw.
    Refused(Flaw),
    /// Memory was wanting.
    Memory,
}

impl From<AllocError> for AnswerErr {
    ghost from_gives = { λ _ e. e ≡ Memory };

    fn from(_e: AllocError) -> AnswerErr {
        AnswerErr::Memory
    }
}

impl<T: Drop> From<AllocFailed<T>> for AnswerErr {
    ghost from_gives = { λ _ e. e ≡ Memory };

    fn from(_e: AllocFailed<T>) -> AnswerErr {
        AnswerErr::Memory
    }
}

/// The line isn't of its form.
pub fn syntax(line: u64) -> AnswerErr
    ensures { result ≡ AnswerErr.Refused (syntax line) }
{
    AnswerErr::Refused(Flaw {
        line,
        kind: FlawKind::Syntax,
    })
}

/// A number of the line is outside its range.
pub fn out_of_range(line: u64) -> AnswerErr
    ensures { result ≡ AnswerErr.Refused (out_of_range line) }
{
    AnswerErr::Refused(Flaw {
        line,
        kind: FlawKind::Number,
    })
}

/// The edge of the line joins a node to itself.
pub fn loop_flaw(line: u64, edge: u32) -> AnswerErr
    ensures { result ≡ AnswerErr.Refused (loop_flaw line edge) }
{
    AnswerErr::Refused(Flaw {
        line,
        kind: FlawKind::Loop(edge),
    })
}

/// Something stands behind the end.
pub fn trailing(line: u64) -> AnswerErr
    ensures { result ≡ AnswerErr.Refused (trailing line) }
{
    AnswerErr::Refused(Flaw {
        line,
        kind: FlawKind::Trailing,
    })
}
