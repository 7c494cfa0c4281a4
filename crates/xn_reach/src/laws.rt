//! Laws on lists whose end flat insertions reach. Each is the contract of a function with an empty body.
ghost use Rattle.xn_reach.specs.Laws.{FlatWhereEndIsReached, StuckWhereNotFlat};

/// Flat insertions reach the end of a list exactly where the web of its segments has a flat map; elsewhere they are
/// stuck.
pub fn listed_webs()
    ensures reached { FlatWhereEndIsReached }
    ensures stuck { StuckWhereNotFlat }
{}
