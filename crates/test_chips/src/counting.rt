// A layer over any chip that counts its calls, granted and refused alike.
// The counts are for tests and in no contract: a clause knows nothing of what a cell holds.
ghost use Rattle.std.specs.Prelude.{◌≡◌};
ghost use Rattle.test_chips.specs.Counted.{counting_shape};

use chip::{BlockNumber, Chip, ChipFault, PageNumber};
use std::cell::Cell;

#[derive(Drop)]
pub struct Counting<C> {
    below: C,
    reads: Cell<u32>,
    programs: Cell<u32>,
    erases: Cell<u32>,
}

fn count(calls: &Cell<u32>) {
    calls.set(calls.get().saturating_add(1));
}

impl<C: Chip> Counting<C> {
    pub fn new(below: C) -> Counting<C>
        ensures { result.below ≡ below }
    {
        Counting {
            below,
            reads: Cell::new(0),
            programs: Cell::new(0),
            erases: Cell::new(0),
        }
    }

    // The chip that it was made from.
    pub fn into_below(self) -> C
        ensures { result ≡ self.below }
    {
        let Counting {
            below,
            reads: _,
            programs: _,
            erases: _,
        } = self;
        below
    }

    pub fn reads(&self) -> u32 {
        self.reads.get()
    }

    pub fn programs(&self) -> u32 {
        self.programs.get()
    }

    pub fn erases(&self) -> u32 {
        self.erases.get()
    }
}

impl<C: Chip> Chip for Counting<C> {
    const PAGES_PER_BLOCK: usize = C::PAGES_PER_BLOCK;

    ghost per = { C.Chip.per };

    ghost blocks = { λ c. C.Chip.blocks c.below };

    ghost pages = { λ c. C.Chip.pages c.below };

    ghost shape = { counting_shape C.Chip.shape };

    ghost frame = { C.Chip.frame };

    ghost kept = { λ c. C.Chip.kept c.below };

    fn block_pages() -> usize {
        C::block_pages()
    }

    fn size(&self) -> usize {
        self.below.size()
    }

    fn read(&self, page: PageNumber, buffer: &mut [u8]) -> Result<(), ChipFault> {
        count(&self.reads);
        self.below.read(page, buffer)
    }

    fn program(&mut self, page: PageNumber, bytes: &[u8]) -> Result<(), ChipFault> {
        count(&self.programs);
        self.below.program(page, bytes)
    }

    fn erase(&mut self, block: BlockNumber) -> Result<(), ChipFault> {
        count(&self.erases);
        self.below.erase(block)
    }
}
