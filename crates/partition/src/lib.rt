// Some blocks of a chip, as a chip of their own: each call comes down to one call of the chip below.
#![tactic(auto)]

ghost use Rattle.std.specs.Prelude.{◌≡◌, ℕ, ◌*◌, min, List, length, take, drop, MatchResult};
ghost use Rattle.chip.specs.Pages.{Page};
ghost use Rattle.partition.specs.Part.{existing, part_blocks, part_pages, PartFrame, part_frame, PageBelow, BlockBelow, Lacking};
ghost use Rattle.partition.specs.Shaped.{part_shape};

use chip::{BlockNumber, Chip, ChipFault, PageNumber};

// No chip has more blocks: one past it is lacking, and page numbers below it fit.
const MOST_BLOCKS: usize = 4096;

// `count` blocks of the chip below, from its block `first` on.
#[derive(Drop)]
pub struct Partition<C> {
    below: C,
    first: usize,
    count: usize,
}

// The first block and the number of blocks, cut to what exists of `size` blocks.
fn cut(first: BlockNumber, count: usize, size: usize) -> (usize, usize)
    ensures first { result.0 ≡ min first.0 size }
    ensures count { result.1 ≡ existing first.0 count size }
    ensures pages { (per : ℕ) (l : List Page) → length l ≡ size * per → take (result.1 * per) (drop (result.0 * per) l) ≡ take (count * per) (drop (first.0 * per) l) }
{
    let first = (first.0 as usize).min(size);
    (first, count.min(size - first))
}

impl<C: Chip> Partition<C> {
    // The blocks asked for that exist, perhaps none.
    pub fn new(below: C, first: BlockNumber, count: usize) -> Partition<C>
        ensures below { result.below ≡ below }
        ensures first { result.first ≡ min first.0 (C.Chip.blocks below) }
        ensures count { result.count ≡ existing first.0 count (C.Chip.blocks below) }
        ensures blocks { part_blocks C.Chip.blocks result ≡ existing first.0 count (C.Chip.blocks below) }
        ensures pages { part_pages C.Chip.per C.Chip.pages result ≡ take (count * C.Chip.per) (drop (first.0 * C.Chip.per) (C.Chip.pages below)) }
    {
        let (first, count) = cut(first, count, below.size());
        Partition {
            below,
            first,
            count,
        }
    }

    // The chip that the partition was made from.
    pub fn into_below(self) -> C
        ensures { result ≡ self.below }
    {
        let Partition {
            below,
            first: _,
            count: _,
        } = self;
        below
    }

    // Which block of the chip below a block of the partition is.
    // (Not by `block_index`: that asks the chip below for its size, at each call and at each partition below.)
    fn block_below(&self, block: BlockNumber) -> Result<BlockNumber, ChipFault>
        ensures { MatchResult result (λ b. BlockBelow C.Chip.per self.now.first self.now.count (C.Chip.blocks self.now.below) (C.Chip.pages self.now.below) block.0 b.0) (Lacking (part_blocks C.Chip.blocks self.now) block.0) }
    {
        let block = block.0 as usize;
        if block >= self.count.min(MOST_BLOCKS.saturating_sub(self.first)) {
            return Err(ChipFault::OutOfRange);
        }
        Ok(BlockNumber((self.first + block) as u32))
    }

    // The same for a page: it has its place in the block below.
    fn page_below(&self, page: PageNumber) -> Result<PageNumber, ChipFault>
        ensures { MatchResult result (λ p. PageBelow (self.now.first * C.Chip.per) (self.now.count * C.Chip.per) (C.Chip.pages self.now.below) page.0 p.0) (Lacking (length (part_pages C.Chip.per C.Chip.pages self.now)) page.0) }
    {
        let (block, place) = C::split(page);
        let block = self.block_below(block)?;
        let page = block.0 as usize * Self::block_pages() + place;
        Ok(PageNumber(page as u32))
    }
}

impl<C: Chip> Chip for Partition<C> {
    const PAGES_PER_BLOCK: usize = C::PAGES_PER_BLOCK;

    ghost per = { C.Chip.per };

    ghost blocks = { part_blocks C.Chip.blocks };

    ghost pages = { part_pages C.Chip.per C.Chip.pages };

    ghost shape = { part_shape C.Chip.shape };

    ghost frame = { PartFrame C.Chip.frame };

    ghost kept = { part_frame C.Chip.per C.Chip.kept C.Chip.pages };

    fn block_pages() -> usize {
        C::block_pages()
    }

    fn size(&self) -> usize {
        let behind = self.below.size().saturating_sub(self.first);
        self.count.min(behind)
    }

    fn read(&self, page: PageNumber, buffer: &mut [u8]) -> Result<(), ChipFault> {
        let at = self.page_below(page)?;
        self.below.read(at, buffer)
    }

    fn program(&mut self, page: PageNumber, bytes: &[u8]) -> Result<(), ChipFault> {
        let at = self.page_below(page)?;
        self.below.program(at, bytes)
    }

    fn erase(&mut self, block: BlockNumber) -> Result<(), ChipFault> {
        let at = self.block_below(block)?;
        self.below.erase(at)
    }
}
