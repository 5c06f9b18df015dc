// A NAND chip over lent bytes: 32 pages to a block, page after page.
#![tactic(auto)]

ghost use Rattle.std.specs.Prelude.{◌≡◌, ℕ, ◌+◌, ◌*◌, ◌≤◌, List, length, take, drop};
ghost use Rattle.std.specs.Borrow.{GName};
ghost use Rattle.chip.specs.Pages.{is_erased};
ghost use Rattle.nand.specs.Image.{nand_blocks, nand_pages};
ghost use Rattle.nand.specs.Shaped.{nand_shape};

use chip::{BlockNumber, Chip, ChipFault, PAGE_BYTES, PageNumber, is_erased};

// The most blocks that the chip takes of its image.
pub const MOST_BLOCKS: usize = 128;

// Bytes of a block.
pub const BLOCK_BYTES: usize = 16896;

// The chip is the whole blocks of its image, up to the limit; bytes beyond belong to no page.
#[derive(Drop)]
pub struct Nand<'a> {
    image: &'a mut [u8],
}

// A lender common to the makes would spare neither of these two functions: each make is a type of its own, for
// its impl of Chip.
impl<'a> Nand<'a> {
    pub fn new(image: &'a mut [u8]) -> Nand<'a>
        ensures image { result.image.now ≡ image.old }
        ensures lender { result.image.ghost_name ≡ image.entry.ghost_name }
    {
        Self { image }
    }

    // The image again.
    pub fn into_image(self) -> &'a mut [u8]
        ensures image { result.now ≡ self.entry.image.now }
        ensures lender { result.ghost_name ≡ self.entry.image.ghost_name }
    {
        let Nand { image } = self;
        image
    }
}

impl Nand<'_> {
    // Whether the page that begins at a byte is erased.
    fn is_erased_at(&self, at: usize) -> bool
        requires { at + 528 ≤ length self.now.image.now }
        ensures { result ≡ is_erased (take 528 (drop at self.now.image.now)) }
    {
        is_erased(&self.image[at..at + PAGE_BYTES])
    }
}

impl Chip for Nand<'_> {
    const PAGES_PER_BLOCK: usize = 32;

    ghost per = { 32 };

    ghost blocks = { λ c. nand_blocks c.image.now };

    ghost pages = { λ c. nand_pages c.image.now };

    ghost shape = { nand_shape };

    ghost frame = { GName × List ℕ };

    // Which bytes are lent, and those beyond the last block.
    ghost kept = { λ c. (c.image.ghost_name, drop (nand_blocks c.image.now * 16896) c.image.now) };

    fn block_pages() -> usize
        ensures { result ≡ 32 }
    {
        Self::PAGES_PER_BLOCK
    }

    fn size(&self) -> usize {
        (self.image.len() / BLOCK_BYTES).min(MOST_BLOCKS)
    }

    fn read(&self, page: PageNumber, buffer: &mut [u8]) -> Result<(), ChipFault> {
        let (block, place) = self.place_of(page, buffer.len())?;
        let at = block * BLOCK_BYTES + place * PAGE_BYTES;
        buffer.copy_from_slice(&self.image[at..at + PAGE_BYTES]);
        Ok(())
    }

    fn program(&mut self, page: PageNumber, bytes: &[u8]) -> Result<(), ChipFault> {
        let (block, place) = self.place_of(page, bytes.len())?;
        let at = block * BLOCK_BYTES + place * PAGE_BYTES;
        if !self.is_erased_at(at) {
            return Err(ChipFault::NotErased);
        }
        self.image[at..at + PAGE_BYTES].copy_from_slice(bytes);
        Ok(())
    }

    fn erase(&mut self, block: BlockNumber) -> Result<(), ChipFault> {
        let block = self.block_index(block)?;
        let at = block * BLOCK_BYTES;
        self.image[at..at + BLOCK_BYTES].fill(0xFF);
        Ok(())
    }
}
