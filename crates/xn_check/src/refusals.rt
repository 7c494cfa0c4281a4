ghost use Rattle.std.specs.Prelude.{◌≡◌};

use xn_kinds::{Flaw, FlawKind};
use xn_proof::AnswerErr;

/// The refusal of the line with this number.
pub fn refused(line: u64, kind: FlawKind) -> AnswerErr
    ensures { result ≡ AnswerErr.Refused record { line = line; kind = kind } }
{
    AnswerErr::Refused(Flaw { line, kind })
}
