//! Laws that show that the words on states, boxes, bounds and trees mean what they should. Each is the contract of a
//! function with an empty body.

ghost use Rattle.xn_kinds.specs.Examples.{BranchedTree, OneRowOfK5, WeakLeaf};
ghost use Rattle.xn_kinds.specs.Laws.{AllLieInEmpty, ChildrenAreStates, EmptyIsState, LeafAlone, OneBound, ValuesAreInTheBox};

/// Drawings lie in states, and their values in boxes.
pub fn drawings_lie_in_states()
    ensures empty { AllLieInEmpty }
    ensures values { ValuesAreInTheBox }
{}

/// A bound is one number, and a tree of one node is a leaf.
pub fn leaves_have_one_bound()
    ensures bound { OneBound }
    ensures alone { LeafAlone }
{}

/// Trees go through states of the graph.
pub fn trees_go_through_states()
    ensures empty { EmptyIsState }
    ensures children { ChildrenAreStates }
{}

/// The words on worked examples: a row of K5, a leaf that is too weak, a tree that branches.
pub fn worked_examples()
    ensures k5 { OneRowOfK5 }
    ensures weak { WeakLeaf }
    ensures branched { BranchedTree }
{}
