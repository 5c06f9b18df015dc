// A raw flash chip: blocks of pages, 528 bytes to a page.
//
// Every call is total. What it answers, what it leaves in the buffer and which pages the chip has
// afterwards equal definitions over the chip's pages and the arguments, and these definitions are
// the same for every chip.
#![tactic(auto)]

ghost use Rattle.std.specs.Prelude.{◌≡◌, ℕ, List, length};
ghost use Rattle.chip.specs.Pages.{Page, Shape, is_erased, fault_number, block_answer, place_answer, read_answer, buffer_read, program_answer, pages_programmed, erase_answer, pages_erased, split_of};

// A page of a chip, counted from its first.
#[derive(Clone, Copy, Debug, PartialEq, Eq)]
pub struct PageNumber(pub u32);

// A block of a chip, counted from its first.
#[derive(Clone, Copy, Debug, PartialEq, Eq)]
pub struct BlockNumber(pub u32);

// A sector that a store keeps; no chip knows of it.
#[derive(Clone, Copy, Debug, PartialEq, Eq)]
pub struct SectorNumber(pub u32);

// Bytes of a page: its data, then its tag.
pub const PAGE_BYTES: usize = 528;

// Why a chip refuses a call.
#[derive(Clone, Copy, Debug, PartialEq, Eq)]
pub enum ChipFault {
    // The chip has no such page or block.
    OutOfRange,
    // The buffer is not as long as a page.
    BufferLength,
    // The page to be programmed is not erased.
    NotErased,
}

impl ChipFault {
    // (By a match: with discriminants, an edit that gives one fault the number of another would not compile.)
    pub fn number(self) -> u8
        ensures { result ≡ fault_number self }
    {
        match self {
            ChipFault::OutOfRange => 21,
            ChipFault::BufferLength => 22,
            ChipFault::NotErased => 23,
        }
    }
}

pub trait Chip {
    // P, the pages of a block: from 2 to 64.
    const PAGES_PER_BLOCK: usize;

    // The same number, for clauses.
    ghost per: { ℕ };

    // B, the number of blocks: at most 4096, and never changed by a call.
    ghost blocks: { Self → ℕ };

    // What the chip holds: its B times P pages.
    ghost pages: { Self → List Page };

    // The bounds on P and B, that there are B times P pages, and that each is whole.
    ghost shape: { Shape per blocks pages };

    // What no call changes and the pages do not show: the bytes beyond the last block, the blocks
    // outside a partition, and which memory is lent.
    ghost frame: { Type 0 };

    ghost kept: { Self → frame };

    fn block_pages() -> usize
        ensures { result ≡ per };

    // The block of a page, and the page's place in that block.
    fn split(page: PageNumber) -> (BlockNumber, usize)
        ensures { result ≡ split_of per page.0 }
    {
        let per = Self::block_pages();
        let page = page.0 as usize;
        (BlockNumber((page / per) as u32), page % per)
    }

    // The number of blocks.
    fn size(&self) -> usize
        ensures { result ≡ blocks self.now };

    // The block as an index below the number of blocks, if the chip has it.
    fn block_index(&self, block: BlockNumber) -> Result<usize, ChipFault>
        ensures { result ≡ block_answer (blocks self.now) block.0 }
    {
        let block = block.0 as usize;
        if block >= self.size() {
            return Err(ChipFault::OutOfRange);
        }
        Ok(block)
    }

    // The block of a page and its place there, for a call with so many bytes.
    fn place_of(&self, page: PageNumber, length: usize) -> Result<(usize, usize), ChipFault>
        ensures { result ≡ place_answer (pages self.now) page.0 per length }
    {
        let (block, place) = Self::split(page);
        let block = self.block_index(block)?;
        if length != PAGE_BYTES {
            return Err(ChipFault::BufferLength);
        }
        Ok((block, place))
    }

    // Copies a page into the buffer.
    fn read(&self, page: PageNumber, buffer: &mut [u8]) -> Result<(), ChipFault>
        ensures answer { result ≡ read_answer (pages self.now) page.0 (length buffer.old) }
        ensures buffer { buffer.new ≡ buffer_read (pages self.now) page.0 buffer.old };

    // Makes an erased page hold the bytes.
    fn program(&mut self, page: PageNumber, bytes: &[u8]) -> Result<(), ChipFault>
        ensures kept { kept self.new ≡ kept self.old }
        ensures same { blocks self.new ≡ blocks self.old }
        ensures answer { result ≡ program_answer (pages self.old) page.0 (length bytes.now) }
        ensures after { pages self.new ≡ pages_programmed (pages self.old) page.0 bytes.now };

    // Erases the pages of a block.
    fn erase(&mut self, block: BlockNumber) -> Result<(), ChipFault>
        ensures kept { kept self.new ≡ kept self.old }
        ensures same { blocks self.new ≡ blocks self.old }
        ensures answer { result ≡ erase_answer (blocks self.old) block.0 }
        ensures after { pages self.new ≡ pages_erased per (blocks self.old) (pages self.old) block.0 };
}

// Whether every byte is FF.
pub fn is_erased(bytes: &[u8]) -> bool
    ensures { result ≡ is_erased bytes.now }
{
    bytes.iter().all(|b| *b == 0xFF)
}
