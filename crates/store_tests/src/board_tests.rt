// A store in a struct of its caller, on a part of the chip that the caller has.
use chip::{BlockNumber, Chip};
use nor::{BLOCK_WORDS, Nor};
use partition::Partition;
use refusals::Refusal;
use rules::Tick;
use std::test::Fail;
use store::Store;
use test_hands::check_eq;

struct Board<C: Chip> {
    store: Store<Partition<C>>,
}

impl<C: Chip> Board<C> {
    fn new(chip: C) -> Board<C> {
        Board {
            store: Store::new(Partition::new(chip, BlockNumber(1), 2)),
        }
    }

    fn format(&mut self) -> Result<Tick, Refusal> {
        self.store.format(b"K7")
    }

    fn into_chip(self) -> C {
        let Board { store } = self;
        store.unmount().into_below()
    }
}

#[test]
fn a_board_formats_its_part_of_the_chip() -> Result<(), Fail> {
    let mut words = [0xFFFFu16; 4 * BLOCK_WORDS];
    let mut board = Board::new(Nor::new(&mut words));
    let clocks = (board.format(), board.format());
    let _ = board.into_chip();
    check_eq(clocks, (Ok(Tick(1)), Err(Refusal::StoreOpen)))
}
