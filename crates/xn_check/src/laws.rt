//! Laws on the verdict. Each is the contract of a function whose body only names the law that it stands on.
ghost use Rattle.xn_check.specs.Fitting.{FormsFitRows};
ghost use Rattle.xn_check.specs.Laws.{AcceptedHasProof, AcceptedTextBounds, AcceptedWhereSpelled, DrawingsAreTaken, DrawnWhereSpelled, FrontsAreTaken, OneDrawVerdict, OneFrontVerdict, OneVerdict, ProofsAreTaken, SeenWhereSpelled};

use xn_general::laws::all_drawings;
use xn_sound::laws::accepted_proofs;

/// A text that is accepted has a drawing and a proof.
pub fn accepted_texts()
    ensures { AcceptedHasProof }
{}

/// So it bounds the crossing number of its graph from both sides, over all drawings, simple or not.
pub fn accepted_bounds()
    ensures { AcceptedTextBounds }
{
    all_drawings();
    accepted_proofs();
}

/// A text has at most one verdict, one draw verdict and one front verdict: so what the calls answer is the only one, but for want of memory.
pub fn one_outcome()
    ensures verdict { OneVerdict }
    ensures draw { OneDrawVerdict }
    ensures front { OneFrontVerdict }
{}

/// A text is accepted with its bounds exactly where it is the one spelling of an answer for the graph that has these bounds, a drawing
/// with `upper` crossings, rows that hold and a tree that proves `lower`.
pub fn accepted_where_spelled()
    ensures { AcceptedWhereSpelled }
{}

/// The drawing of a text is accepted exactly where the text is the one spelling of an answer for the graph that has this drawing,
/// with its upper bound of crossings.
pub fn drawn_texts()
    ensures { DrawnWhereSpelled }
{}

/// What is seen of the drawing of a text is told exactly where the text is the one spelling of an answer whose drawing is one of its
/// graph with `upper` crossings.
pub fn seen_texts()
    ensures { SeenWhereSpelled }
{}

/// So no text that spells such an answer is refused.
pub fn none_refused()
    ensures verdict { ProofsAreTaken }
    ensures draw { DrawingsAreTaken }
    ensures front { FrontsAreTaken }
{}

/// What the forms of lines tell of the rows, at each place: as many are whole as are said, and the numbers of leaves are those of rows.
pub fn forms_fit_rows()
    ensures { FormsFitRows }
{}
