// Numbers of pages, in the order of their size.
ghost use Rattle.std.specs.Prelude.{◌≡◌, ℕ, ◌≤◌, take, Option};
ghost use Rattle.std.specs.Fn.{FnReturnsAt};
ghost use Rattle.std.specs.List.{filter_map};
ghost use Rattle.std.specs.List.Sorted.{IsNonDecreasing, IsPermutation};
ghost use Rattle.layout.specs.declared.pages.Tag as layout;
ghost use Rattle.readings.specs.Mount.{distinct};
ghost use Rattle.mounting.specs.Keys.{Above};

use crate::tags::Tags;
use layout::Tag;
use tables::MOST_PAGES;

#[derive(Clone, Copy)]
pub(crate) struct Sorted<'a> {
    pub numbers: &'a [u64],
    ghost rising: { IsNonDecreasing numbers.now },
}

// Writes the numbers of the tags that have one, one after the other, and answers how many there are.
pub(crate) fn fill<F: Fn(&Tag) -> Option<u64>>(
    tags: Tags,
    number: F,
    out: &mut [u64; MOST_PAGES],
) -> usize
    ghost gives: { layout.Tag → Option ℕ }
    requires can { F.IsAlwaysCallable number }
    requires is { (t : layout.Tag) (r : Option ℕ) → FnReturnsAt F.Fn number t r → r ≡ gives t }
    ensures few { result ≤ 2048 }
    ensures are { take result out.new ≡ filter_map gives tags.entry.all.now }
{
    // With its own count: what a loop writes through an adapter of `iter_mut` is unknown to a proof afterwards.
    let mut n = 0;
    for tag in tags.all {
        if let Some(it) = number(tag) {
            out[n] = it;
            n += 1;
        }
    }
    n
}

impl<'a> Sorted<'a> {
    pub fn new(numbers: &'a mut [u64]) -> Sorted<'a>
        ensures { IsPermutation numbers.old result.numbers.now }
    {
        numbers.sort_unstable();
        Sorted { numbers }
    }

    // Whether no number stands twice: each is below the next.
    pub fn all_differ(self) -> bool
        ensures { result ≡ distinct self.entry.numbers.now }
    {
        self.numbers.is_sorted_by(|a, b| *a < *b)
    }

    // Where the least number above n stands.
    pub fn first_above(self, n: u64) -> usize
        ensures { Above self.entry.numbers.now n result }
    {
        self.numbers.partition_point(|k| *k <= n)
    }
}
