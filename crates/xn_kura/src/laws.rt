//! What evidence shows. Each law is the contract of a function with an empty body.
ghost use Rattle.xn_kura.specs.Laws.{CrossingFreeIsFlat, EvidenceExcludesFlat, EvidenceOfCrossings, FiveExcludesFlat, KuratowskiGraphs, SomePathsAreApart, ThreeThreeExcludesFlat};

/// A web for which an evidence of either kind holds has no flat map.
pub fn evidence_excludes_flat_maps()
    ensures five { FiveExcludesFlat }
    ensures three_three { ThreeThreeExcludesFlat }
    ensures either { EvidenceExcludesFlat }
{}

/// Some of the paths of a subdivision, in any order and each perhaps turned round, are one too.
pub fn paths_in_any_order()
    ensures { SomePathsAreApart }
{}

/// A graph for which an evidence of either kind holds has no simple drawing without crossings.
pub fn evidence_shows_crossings()
    ensures flat { CrossingFreeIsFlat }
    ensures crossings { EvidenceOfCrossings }
{}

/// K5 and K3,3 have no flat map, and no simple drawing without crossings.
pub fn kuratowski_graphs()
    ensures { KuratowskiGraphs }
{}
