//! Laws on maps and walks that are said to be a loose drawing. Each is the contract of a function with an empty body.
ghost use Rattle.xn_insert.specs.Judged.{FlawedIsNotDrawn, OneLooseFlaw};

/// Map and walks that have a flaw are no loose drawing of all edges, and they have at most one. So `Loose::make` answers
/// with a loose drawing exactly where they are one, but for want of memory.
pub fn flaws()
    ensures none { FlawedIsNotDrawn }
    ensures one { OneLooseFlaw }
{}
