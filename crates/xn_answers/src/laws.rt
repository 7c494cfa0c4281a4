//! Laws of answers. Each is the contract of a function whose body only names the laws that it stands on.
ghost use Rattle.xn_answers.specs.Flat.{FlatWhereCrossless};
ghost use Rattle.xn_answers.specs.Proved.{ProvedAnswersAreAccepted, ProvedAnswersAreWellFormed};

use xn_check::laws::accepted_where_spelled;
use xn_general::laws::all_drawings;
use xn_kinds::laws::trees_go_through_states;
use xn_sound::laws::accepted_proofs;

/// A graph has a drawing without crossings, simple or not, exactly where it has a flat map.
pub fn flat_graphs()
    ensures { FlatWhereCrossless }
{
    all_drawings();
}

/// An answer that proves what it says, within the limits, has a spelling.
pub fn answers()
    ensures { ProvedAnswersAreWellFormed }
{
    all_drawings();
    accepted_proofs();
    trees_go_through_states();
}

/// And the verdict on its spelling is that it is accepted with its bounds.
pub fn accepted_answers()
    ensures { ProvedAnswersAreAccepted }
{
    accepted_where_spelled();
}
