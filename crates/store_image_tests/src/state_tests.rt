// Versions born exactly at a held number, which no call makes.
use nor::{BLOCK_WORDS, Nor};
use std::test::Fail;
use test_hands::Step::*;
use test_hands::*;

#[test]
fn a_version_born_at_a_held_number_is_of_that_state() -> Result<(), Fail> {
    let mut words = [0xFFFFu16; 2 * BLOCK_WORDS];
    let mut chip = Nor::new(&mut words);
    put(&mut chip, 0, &register_page(7, &[4])?)?;
    put(&mut chip, 1, &data_page(1, 4, 65)?)?;
    put(&mut chip, 2, &data_page(1, 6, 66)?)?;
    put(&mut chip, 3, &data_page(2, 5, 67)?)?;
    play_on(
        chip,
        &[
            Mount(Ok(7)),
            Look(4, 1, 65),
            SinceIn(4, 1, Ok(Some(4))),
            LookEmpty(4, 2),
            Read(1, 66),
            Count(Ok((3, 6))),
            Revert(4, Ok(8)),
            Read(1, 65),
            Since(1, Ok(Some(4))),
            ReadEmpty(2),
            Count(Ok((1, 6))),
            Close(Ok(())),
            Mount(Ok(8)),
            Look(4, 1, 65),
            Read(1, 65),
            ReadEmpty(2),
        ],
    )
}

// The deletion hides the version before it in that state too.
#[test]
fn a_deletion_born_at_a_held_number_is_of_that_state() -> Result<(), Fail> {
    let mut words = [0xFFFFu16; 2 * BLOCK_WORDS];
    let mut chip = Nor::new(&mut words);
    put(&mut chip, 0, &register_page(7, &[4])?)?;
    put(&mut chip, 1, &data_page(1, 3, 65)?)?;
    put(&mut chip, 2, &deletion_page(1, 4)?)?;
    put(&mut chip, 3, &data_page(1, 5, 66)?)?;
    play_on(
        chip,
        &[
            Mount(Ok(7)),
            LookEmpty(4, 1),
            SinceIn(4, 1, Ok(None)),
            Read(1, 66),
            Count(Ok((2, 6))),
            Revert(4, Ok(8)),
            ReadEmpty(1),
            Count(Ok((1, 6))),
        ],
    )
}
