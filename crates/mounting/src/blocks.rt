// Wholly erased blocks.
ghost use Rattle.std.specs.Prelude.{◌≡◌, ℕ, ◌*◌, ◌/◌, ◌<◌, false, length, position, IfSome, MatchOption};
ghost use Rattle.std.specs.List.{list_all};
ghost use Rattle.readings.specs.Mount.{erased_block};
ghost use Rattle.mounting.specs.Tagged.{tag_sayings, is_blank};
ghost use Rattle.mounting.specs.Blocks.{blocks_of, ErasedAt};

use crate::tags::Tags;
use chip::BlockNumber;
use layout::Tag;

fn is_erased(tag: &Tag) -> bool
    ensures { result ≡ is_blank tag.now }
{
    matches!(tag, Tag::Erased)
}

fn all_erased(tags: &[Tag]) -> bool
    ensures { result ≡ list_all is_blank tags.now }
{
    tags.iter().all(is_erased)
}

// Of the blocks with `per` pages each, the number of the first that is wholly erased.
fn first_erased(tags: &[Tag], per: usize) -> Option<usize>
    requires { 0 < per }
    ensures low { IfSome result (λ b. b < length tags.now / per) }
    ensures first { (blocks : ℕ) → length tags.now ≡ blocks * per → result ≡ position (list_all is_blank) (blocks_of per blocks tags.now) }
{
    tags.chunks_exact(per).position(all_erased)
}

// The first wholly erased block.
pub(crate) fn erased_block(tags: Tags, per: usize) -> Option<BlockNumber>
    requires { 0 < per }
    ensures { (blocks : ℕ) → length tags.entry.all.now ≡ blocks * per → MatchOption result (erased_block per blocks (tag_sayings tags.entry.all.now) ≡ false) (λ b. ErasedAt per blocks (tag_sayings tags.entry.all.now) b.0) }
{
    first_erased(tags.all, per).map(|block| BlockNumber(block as u32))
}
