//! Laws of permutations: functions on the numbers below a bound, their walks and the number of their cycles.
//! Each function here does nothing: its contract is the law.
ghost use Rattle.xn_ring.specs.Parts.{AllCyclesHold, HalvesAddUp, HalvesComeApart, MarksAreMany, PartsAddUp, RestrictionsKeepCycles, TopIsAPair, TopIsAlone, WalksStay};
ghost use Rattle.xn_ring.specs.Removals.{TakesAllOut, TakesOut};
ghost use Rattle.xn_ring.specs.Swaps.{ListsSwap, SwapsAreUndone, SwapsCutRings, SwapsJoin, SwapsLeaveOthers, SwapsOfOne, SwapsPermute, SwapsSplit};
ghost use Rattle.xn_ring.specs.Transfers.{InversesAreThere, RenumberingKeepsCycles, TransfersKeepCycles, UndoingIsInverse};
ghost use Rattle.xn_ring.specs.Walks.{AgreeingIsEnough, EachIsLedTo, EachWalkHasOneLeast, LeastIsLeast, WalksAreDecided, WalksComeBack, WalksGoOn, WalksLeadBack};

/// Where the walks of a permutation lead.
pub fn walks()
    ensures come_back { WalksComeBack }
    ensures lead_back { WalksLeadBack }
    ensures go_on { WalksGoOn }
    ensures decided { WalksAreDecided }
    ensures led_to { EachIsLedTo }
    ensures agreeing { AgreeingIsEnough }
{}

/// The number of cycles is the number of the least, one of each walk.
pub fn least()
    ensures least { LeastIsLeast }
    ensures one { EachWalkHasOneLeast }
{}

/// What a swap of two successors does to the cycles.
pub fn swaps()
    ensures permutes { SwapsPermute }
    ensures undone { SwapsAreUndone }
    ensures same { SwapsOfOne }
    ensures joins { SwapsJoin }
    ensures splits { SwapsSplit }
    ensures others { SwapsLeaveOthers }
    ensures cuts { SwapsCutRings }
    ensures lists { ListsSwap }
{}

/// What it does to the cycles to take numbers out, each alone from then on.
pub fn removals()
    ensures one { TakesOut }
    ensures several { TakesAllOut }
{}

/// The cycles of a part of the numbers.
pub fn parts()
    ensures all { AllCyclesHold }
    ensures stay { WalksStay }
    ensures two { PartsAddUp }
    ensures marks { MarksAreMany }
    ensures restrictions { RestrictionsKeepCycles }
{}

/// Two permutations beside each other, and numbers on top of one.
pub fn halves()
    ensures add_up { HalvesAddUp }
    ensures come_apart { HalvesComeApart }
    ensures alone { TopIsAlone }
    ensures pair { TopIsAPair }
{}

/// Permutations that have the same cycles by different numbers.
pub fn transfers()
    ensures transfers { TransfersKeepCycles }
    ensures renumbering { RenumberingKeepsCycles }
    ensures undoing { UndoingIsInverse }
    ensures inverses { InversesAreThere }
{}
