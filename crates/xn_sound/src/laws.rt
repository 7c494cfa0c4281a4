//! Laws on rows and proof trees. Each is the contract of a function whose body only names the laws that it stands on.
ghost use Rattle.xn_sound.specs.Laws.{AcceptedProofsBound, DrawingsLieInChildren, EvidenceExcludesFlatMaps, ExamplesAreBounded, KuratowskiGraphsCross, LeavesHaveCrossings, RowsAreMet, TreesProve, ZeroMeansTheRowsOrders};

use xn_extend::laws::stuck_lists;
use xn_fewer::laws::fewer_edges;
use xn_general::laws::all_drawings;
use xn_kinds::laws::{drawings_lie_in_states, worked_examples};
use xn_kura::laws::{evidence_excludes_flat_maps, kuratowski_graphs};

/// Where the value of a row in orders of the graph is 0, its own orders are those on its edges.
pub fn rows_of_value_zero()
    ensures { ZeroMeansTheRowsOrders }
{}

/// In every simple drawing the value of every row that holds is at least 1.
pub fn rows()
    ensures evidence { EvidenceExcludesFlatMaps }
    ensures met { RowsAreMet }
{
    evidence_excludes_flat_maps();
    stuck_lists();
    fewer_edges();
    rows_of_value_zero();
}

/// A simple drawing that lies in the state of a node lies in that of a child, and in a leaf's state it has the crossings.
pub fn trees()
    ensures children { DrawingsLieInChildren }
    ensures leaves { LeavesHaveCrossings }
    ensures proves { TreesProve }
{
    drawings_lie_in_states();
}

/// A proof that is accepted bounds the crossings of every drawing from below, simple or not: it does so of the simple
/// ones, and every drawing gives a simple one with no more crossings.
pub fn accepted_proofs()
    ensures { AcceptedProofsBound }
{
    all_drawings();
    rows();
    trees();
    drawings_lie_in_states();
}

/// The accepted proofs of the worked examples.
pub fn examples()
    ensures { ExamplesAreBounded }
{
    accepted_proofs();
    worked_examples();
}

/// By their evidence K5 and K3,3 have no drawing without crossings, and the crossing number of K5 is one.
pub fn kuratowski_graphs_cross()
    ensures { KuratowskiGraphsCross }
{
    all_drawings();
    kuratowski_graphs();
}
