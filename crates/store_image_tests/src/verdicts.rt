// What mount answers on a crafted chip.
use chip::{BlockNumber, Chip, PAGE_BYTES};
use nor::{BLOCK_WORDS, Nor};
use partition::Partition;
use refusals::Refusal;
use rules::Tick;
use std::test::Fail;
use store::Store;
use test_hands::put;

// The clock, or the number of the refusal with the page and the cause that it tells.
pub type Verdict = Result<u32, (u8, Option<(u32, u8)>)>;

fn place_of(refusal: Refusal) -> Option<(u32, u8)> {
    match refusal {
        Refusal::BadPage { page, cause } => Some((page.0, cause.number())),
        _ => None,
    }
}

fn verdict_of(answer: Result<Tick, Refusal>) -> Verdict {
    answer
        .map(|clock| clock.0)
        .map_err(|refusal| (refusal.number(), place_of(refusal)))
}

pub fn mounted<C: Chip + Drop>(chip: C) -> Verdict {
    let mut store = Store::new(chip);
    let answer = verdict_of(store.mount());
    let _ = store.unmount();
    answer
}

// The same on up to four NOR blocks with these pages.
pub fn verdict(blocks: usize, pages: &[(u32, [u8; PAGE_BYTES])]) -> Result<Verdict, Fail> {
    let mut words = [0xFFFFu16; 4 * BLOCK_WORDS];
    let mut chip = Nor::new(&mut words);
    for (page, bytes) in pages {
        put(&mut chip, *page, bytes)?;
    }
    Ok(mounted(Partition::new(chip, BlockNumber(0), blocks)))
}
