// A chip of two pages to a block, over lent rows: as many blocks as there are pairs of rows.
ghost use Rattle.std.specs.Prelude.{◌≡◌, ◌<◌, List, [], map, length, MatchResult, slice_index_or};
ghost use Rattle.std.specs.Borrow.{GName};
ghost use Rattle.chip.specs.Pages.{block_answer, place_answer};
ghost use Rattle.test_chips.specs.declared.row.Row.{Row};
ghost use Rattle.test_chips.specs.Rows.{row_bytes, tiny_blocks, tiny_pages, spare_rows, PageRow, BlockRows};
ghost use Rattle.test_chips.specs.Shaped.{tiny_shape};

use crate::row::Row;
use chip::{BlockNumber, Chip, ChipFault, PAGE_BYTES, PageNumber, is_erased};

#[derive(Drop)]
pub struct Tiny<'a> {
    rows: &'a mut [Row],
}

// A lender common to the makes would spare neither of these two functions: each make is a type of its own, for
// its impl of Chip.
impl<'a> Tiny<'a> {
    pub fn new(rows: &'a mut [Row]) -> Tiny<'a>
        ensures rows { result.rows.now ≡ rows.old }
        ensures lender { result.rows.ghost_name ≡ rows.entry.ghost_name }
    {
        Tiny { rows }
    }

    // The rows that it was made from.
    pub fn into_rows(self) -> &'a mut [Row]
        ensures rows { result.now ≡ self.entry.rows.now }
        ensures lender { result.ghost_name ≡ self.entry.rows.ghost_name }
    {
        let Tiny { rows } = self;
        rows
    }
}

impl Tiny<'_> {
    // The row of a page, for a call with so many bytes.
    fn row_of(&self, page: PageNumber, length: usize) -> Result<usize, ChipFault>
        ensures { MatchResult result (PageRow self.now.rows.now page.0 length) (λ fault. place_answer (tiny_pages self.now.rows.now) page.0 2 length ≡ Err fault) }
    {
        let (block, place) = self.place_of(page, length)?;
        Ok(block * 2 + place)
    }

    // The first of the two rows of a block.
    fn rows_of(&self, block: BlockNumber) -> Result<usize, ChipFault>
        ensures { MatchResult result (BlockRows self.now.rows.now block.0) (λ fault. block_answer (tiny_blocks self.now.rows.now) block.0 ≡ Err fault) }
    {
        let block = self.block_index(block)?;
        Ok(block * 2)
    }

    // The bytes of a row.
    fn bytes_at(&self, row: usize) -> [u8; PAGE_BYTES]
        requires { row < length self.now.rows.now }
        ensures { result ≡ slice_index_or (map row_bytes self.now.rows.now) row [] }
    {
        self.rows[row].bytes()
    }
}

impl Chip for Tiny<'_> {
    const PAGES_PER_BLOCK: usize = 2;

    ghost per = { 2 };

    ghost blocks = { λ c. tiny_blocks c.rows.now };

    ghost pages = { λ c. tiny_pages c.rows.now };

    ghost shape = { tiny_shape };

    ghost frame = { GName × List Row };

    // Which rows are lent, and those of no block.
    ghost kept = { λ c. (c.rows.ghost_name, spare_rows c.rows.now) };

    fn block_pages() -> usize
        ensures { result ≡ 2 }
    {
        Self::PAGES_PER_BLOCK
    }

    fn size(&self) -> usize {
        (self.rows.len() / 2).min(4096)
    }

    fn read(&self, page: PageNumber, buffer: &mut [u8]) -> Result<(), ChipFault> {
        let row = self.row_of(page, buffer.len())?;
        buffer.copy_from_slice(&self.bytes_at(row));
        Ok(())
    }

    fn program(&mut self, page: PageNumber, bytes: &[u8]) -> Result<(), ChipFault> {
        let row = self.row_of(page, bytes.len())?;
        if !is_erased(&self.bytes_at(row)) {
            return Err(ChipFault::NotErased);
        }
        let mut copy = [0; PAGE_BYTES];
        copy.copy_from_slice(bytes);
        self.rows[row] = Row::new(copy);
        Ok(())
    }

    fn erase(&mut self, block: BlockNumber) -> Result<(), ChipFault> {
        let row = self.rows_of(block)?;
        self.rows[row] = Row::erased();
        self.rows[row + 1] = Row::erased();
        Ok(())
    }
}
