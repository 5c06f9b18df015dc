// A NOR chip over lent 16-bit words: 8 pages to a block, the low byte of a word first.
#![tactic(auto)]

ghost use Rattle.std.specs.Prelude.{◌≡◌, ℕ, ◌+◌, ◌*◌, ◌<◌, true, List, length, drop, slice_index, MatchResult};
ghost use Rattle.std.specs.Borrow.{GName};
ghost use Rattle.chip.specs.Pages.{is_erased, place_answer};
ghost use Rattle.nor.specs.Image.{offset_of, word_at, nor_blocks, nor_page, nor_pages};
ghost use Rattle.nor.specs.At.{IsPage};
ghost use Rattle.nor.specs.Program.{programmed};
ghost use Rattle.nor.specs.Shaped.{nor_shape};

use chip::{BlockNumber, Chip, ChipFault, PAGE_BYTES, PageNumber};

// The most blocks that the chip takes of its image.
pub const MOST_BLOCKS: usize = 512;

// Words of a block, and of a page.
pub const BLOCK_WORDS: usize = 2112;

const PAGE_WORDS: usize = 264;

// The chip is the whole blocks of its image, up to the limit; words beyond belong to no page.
#[derive(Drop)]
pub struct Nor<'a> {
    image: &'a mut [u16],
}

// A lender common to the makes would spare neither of these two functions: each make is a type of its own, for
// its impl of Chip.
impl<'a> Nor<'a> {
    pub fn new(image: &'a mut [u16]) -> Nor<'a>
        ensures image { result.image.now ≡ image.old }
        ensures lender { result.image.ghost_name ≡ image.entry.ghost_name }
    {
        Self { image }
    }

    // The image again.
    pub fn into_image(self) -> &'a mut [u16]
        ensures image { result.now ≡ self.entry.image.now }
        ensures lender { result.ghost_name ≡ self.entry.image.ghost_name }
    {
        let Nor { image } = self;
        image
    }
}

// A page by its block and its place there.
#[derive(Clone, Copy)]
struct PageAt {
    block: usize,
    place: usize,
    ghost on_chip: { block < 512 },
    ghost placed: { place < 8 },
}

impl PageAt {
    // Where a byte of the page lies in its block: eight data areas, then eight tags.
    fn offset_in_block(self, byte: usize) -> usize
        requires { byte < 528 }
        ensures { result ≡ offset_of self.place byte }
    {
        if byte < 512 {
            self.place * 512 + byte
        } else {
            4096 + self.place * 16 + (byte - 512)
        }
    }

    // The word of the image that holds the i-th pair of bytes of the page.
    fn word(self, i: usize) -> usize
        requires { i < 264 }
        ensures { result ≡ word_at self.block self.place i }
    {
        self.block * BLOCK_WORDS + self.offset_in_block(2 * i) / 2
    }

    // ANDs the bytes into the words of the page.
    fn and_bytes(self, image: &mut [u16], bytes: &[u8])
        requires { (self.block < nor_blocks image.old) × (length bytes.now ≡ 528) }
        ensures { image.new ≡ programmed image.old self.block self.place bytes.now }
    {
        for (i, pair) in bytes.chunks_exact(2).enumerate() {
            image[self.word(i)] &= u16::from_le_bytes([pair[0], pair[1]]);
        }
    }
}

impl Nor<'_> {
    // Where a page lies, for a call with so many bytes.
    fn page_at(&self, page: PageNumber, length: usize) -> Result<PageAt, ChipFault>
        ensures { MatchResult result (λ at. IsPage self.now.image.now page.0 length at.block at.place) (λ fault. place_answer (nor_pages self.now.image.now) page.0 8 length ≡ Err fault) }
    {
        let (block, place) = self.place_of(page, length)?;
        Ok(PageAt { block, place })
    }

    // Copies a page into the buffer.
    fn copy_page(&self, page: PageAt, buffer: &mut [u8])
        requires { (page.block < nor_blocks self.now.image.now) × (length buffer.old ≡ 528) }
        ensures { buffer.new ≡ nor_page self.now.image.now (page.block * 8 + page.place) }
    {
        // By index: after a write through `chunks_exact_mut` a proof knows no byte of the buffer.
        for i in 0..PAGE_WORDS {
            let [low, high] = self.image[page.word(i)].to_le_bytes();
            buffer[2 * i] = low;
            buffer[2 * i + 1] = high;
        }
    }

    // Whether a page is erased.
    fn is_page_erased(&self, page: PageAt) -> bool
        requires { page.block < nor_blocks self.now.image.now }
        ensures answer { result ≡ is_erased (nor_page self.now.image.now (page.block * 8 + page.place)) }
        ensures ones { result ≡ true → (i : ℕ) → i < 264 → slice_index self.now.image.now (word_at page.block page.place i) ≡ 65535 }
    {
        (0..PAGE_WORDS).all(|i| self.image[page.word(i)] == 0xFFFF)
    }
}

impl Chip for Nor<'_> {
    const PAGES_PER_BLOCK: usize = 8;

    ghost per = { 8 };

    ghost blocks = { λ c. nor_blocks c.image.now };

    ghost pages = { λ c. nor_pages c.image.now };

    ghost shape = { nor_shape };

    ghost frame = { GName × List ℕ };

    // Which words are lent, and those beyond the last block.
    ghost kept = { λ c. (c.image.ghost_name, drop (nor_blocks c.image.now * 2112) c.image.now) };

    fn block_pages() -> usize
        ensures { result ≡ 8 }
    {
        Self::PAGES_PER_BLOCK
    }

    fn size(&self) -> usize {
        (self.image.len() / BLOCK_WORDS).min(MOST_BLOCKS)
    }

    fn read(&self, page: PageNumber, buffer: &mut [u8]) -> Result<(), ChipFault> {
        let page = self.page_at(page, buffer.len())?;
        self.copy_page(page, buffer);
        Ok(())
    }

    fn program(&mut self, page: PageNumber, bytes: &[u8]) -> Result<(), ChipFault> {
        let page = self.page_at(page, bytes.len())?;
        if !self.is_page_erased(page) {
            return Err(ChipFault::NotErased);
        }
        page.and_bytes(self.image, bytes);
        Ok(())
    }

    fn erase(&mut self, block: BlockNumber) -> Result<(), ChipFault> {
        let block = self.block_index(block)?;
        let at = block * BLOCK_WORDS;
        self.image[at..at + BLOCK_WORDS].fill(0xFFFF);
        Ok(())
    }
}
