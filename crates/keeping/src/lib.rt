// What cleaning a store means for its reading: what may go, and what must stay.
#![tactic(auto)]

ghost use Rattle.keeping.specs.Added.{AddedIsAccepted};
ghost use Rattle.keeping.specs.Cleaned.{CleaningKeeps, StayingKept};
ghost use Rattle.keeping.specs.Cut.{BackReads, CutGoesOn, CutIsNeed, CutReads, RevertReads};
ghost use Rattle.keeping.specs.Opened.{LastStays, MustCount, OpenedIsSound, StayingIsMust, ThereIsRoom};
ghost use Rattle.keeping.specs.Reopened.{CutHasRoom, CutReopens, PreparedCanCut, PreparedKeeps};
ghost use Rattle.keeping.specs.Stale.{OnlyStaleLost, StaleAfter, StaleByRecord};
ghost use Rattle.keeping.specs.Stored.{AcceptedIsStored, ClockStays, StoredIsAccepted};
ghost use Rattle.readings.specs.Links.{StaysIsNeed};
ghost use Rattle.readings.specs.Reading.{MustStays, MustSuffices};

// The reading turns on what must stay alone.
pub fn must_suffices()
    ensures { MustSuffices }
{}

// What is left is told as well, and the same must stay.
pub fn must_stays()
    ensures { MustStays }
{}

// The page of the greatest birth is never stale.
pub fn clock_stays()
    ensures { ClockStays }
{}

// The test of a page's record is need.
pub fn stays_is_need()
    ensures { StaysIsNeed }
{}

// Pages that mount accepts are told, with births that stand once and numbers within their limits.
pub fn accepted_is_stored()
    ensures { AcceptedIsStored }
{}

// And mount accepts such pages.
pub fn stored_is_accepted()
    ensures { StoredIsAccepted }
{}

// What an open store has in memory gives what moving pages needs.
pub fn opened_is_sound()
    ensures { OpenedIsSound }
{}

// The versions in the map stay.
pub fn last_stay()
    ensures { LastStays }
{}

// What stays by its record is what must stay.
pub fn staying_is_must()
    ensures { StayingIsMust }
{}

// As many pages must stay as the reading has versions, and one more.
pub fn must_count()
    ensures { MustCount }
{}

// Of all pages but a block's, one at least need not stay.
pub fn there_is_room()
    ensures { ThereIsRoom }
{}

// To keep what stays by its record is to keep what must stay.
pub fn staying_kept()
    ensures { StayingKept }
{}

// Cleaning leaves the store open as before, with the same reading.
pub fn cleaning_keeps()
    ensures { CleaningKeeps }
{}

// As many pages are stale by their records as need not stay.
pub fn stale_by_record()
    ensures { StaleByRecord }
{}

// Cleaning makes no page stale.
pub fn stale_after()
    ensures { StaleAfter }
{}

// Cleaning loses stale pages and no other.
pub fn only_stale_lost()
    ensures { OnlyStaleLost }
{}

// At a cut the test of a page's record is need among the versions that it leaves.
pub fn cut_is_need()
    ensures { CutIsNeed }
{}

// Pages moved after a cut are cut as well.
pub fn cut_goes_on()
    ensures { CutGoesOn }
{}

// What a cut and a register leave.
pub fn cut_reads()
    ensures { CutReads }
{}

// It is what a revert leaves.
pub fn revert_reads()
    ensures { RevertReads }
{}

// And what a back leaves.
pub fn back_reads()
    ensures { BackReads }
{}

// With a map of what each sector had at a held number, pages can be moved and later versions lost.
pub fn prepared_can_cut()
    ensures { PreparedCanCut }
{}

// What then stays by its record is what stays at the cut.
pub fn prepared_keeps()
    ensures { PreparedKeeps }
{}

// After a cut there is room for the register.
pub fn cut_has_room()
    ensures { CutHasRoom }
{}

// After the cut and the register the store is open again.
pub fn cut_reopens()
    ensures { CutReopens }
{}

// Mount accepts the pages after one more was programmed, born at the next tick, if there is room.
pub fn added_is_accepted()
    ensures { AddedIsAccepted }
{}
