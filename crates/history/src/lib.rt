// The law over every sequence of calls that do what their contracts say, for callers who make the
// calls themselves.
#![tactic(auto)]

ghost use Rattle.history.specs.History.{EveryHistoryIsLawful, EveryRevertIsTheEquation, EveryWorkedCaseHolds, EveryOpenStoreIsSound, PremiseIsMet};

// Whatever calls are made on a store since a format, on any chip, in any order: their answers are
// lawful.
pub fn every_history_is_lawful()
    ensures { EveryHistoryIsLawful }
{}

// On every store that calls can lead to, a revert or back to a held number leaves the present state
// (S ∪ Domain(U)) − Range(U).
pub fn every_revert_is_the_equation()
    ensures { EveryRevertIsTheEquation }
{}

// Short lists of calls with their answers, capacities of small chips, and a chip too small for a
// format.
pub fn every_worked_case_holds()
    ensures { EveryWorkedCaseHolds }
{}

// On every store that calls can lead to, memory tells what the chip's pages say.
pub fn every_open_store_is_sound()
    ensures { EveryOpenStoreIsSound }
{}

// A list of events is a history where each call does what its contract says if memory told, before
// it, what the pages say.
pub fn premise_is_met()
    ensures { PremiseIsMet }
{}
