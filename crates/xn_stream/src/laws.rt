//! Laws on texts that come in pieces. Each is the contract of a function whose body does nothing.
ghost use Rattle.xn_stream.specs.Laws.{ComesWithoutFlaw, FlawsStay, HoldsOneFlaw};

/// A flaw that the text so far holds is the verdict on it, whatever comes behind; it holds one at most, and none where
/// each line so far means what it must.
pub fn flaws()
    ensures stay { FlawsStay }
    ensures one { HoldsOneFlaw }
    ensures none { ComesWithoutFlaw }
{}
