// How large a chip may be.
use crate::verdicts::mounted;
use chip::{BlockNumber, PAGE_BYTES};
use nor::{BLOCK_WORDS, Nor};
use partition::Partition;
use std::test::Fail;
use test_hands::Step::*;
use test_hands::*;

#[test]
fn pages_are_2048_at_most(rt: HostRuntime) -> Result<(), Fail> {
    let mut words = vec![in rt.alloc(); 0xFFFFu16; 257 * BLOCK_WORDS]?;
    play_on(
        Nor::new(words.as_mut_slice()),
        &[Format(b"", Err(3)), Mount(Err(3))],
    )?;
    play_on(
        Partition::new(Nor::new(words.as_mut_slice()), BlockNumber(1), 256),
        &[
            Format(b"", Ok(1)),
            Write(2047, 65, Ok(2)),
            Close(Ok(())),
            Mount(Ok(2)),
            Read(2047, 65),
            Count(Ok((1, 2038))),
        ],
    )
}

// The bad page is the last of 256 blocks.
#[test]
fn size_is_looked_at_before_pages(rt: HostRuntime) -> Result<(), Fail> {
    let mut words = vec![in rt.alloc(); 0xFFFFu16; 257 * BLOCK_WORDS]?;
    put(&mut Nor::new(words.as_mut_slice()), 2047, &[0; PAGE_BYTES])?;
    check_eq(mounted(Nor::new(words.as_mut_slice())), Err((3, None)))?;
    let part = Partition::new(Nor::new(words.as_mut_slice()), BlockNumber(0), 256);
    check_eq(mounted(part), Err((5, Some((2047, 30)))))
}
