// What the pages of a chip read as, and what each call makes of it.
#![tactic(auto)]

ghost use Rattle.readings.specs.Sorted.{PagesRead};

// The reading does not depend on the order of pages, on pages that are needed no more, or on how
// often a page stands on the chip.
pub fn reading_depends_on_needed_versions_alone()
    ensures { PagesRead }
{}
