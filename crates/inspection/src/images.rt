// The file of a chip image.
ghost use Rattle.std.specs.Prelude.{◌≡◌, IfOk};
ghost use Rattle.inspection.specs.Images.{words_of, left_over};

use chip::{Chip, PAGE_BYTES};
use std::alloc::{AllocError, Global};

// The 16-bit words of an image, low byte first; an odd last byte is left out.
pub fn words_of(heap: Global, bytes: &[u8]) -> Result<Vec<u16>, AllocError>
    ensures { IfOk result (λ words. words.items ≡ words_of bytes.now) }
{
    let (pairs, _) = bytes.as_chunks::<2>();
    pairs
        .iter()
        .map(|pair| u16::from_le_bytes(*pair))
        .collect(heap)
}

// The bytes of a file that lie beyond the blocks that the chip took of it.
pub fn left_over<C: Chip>(file_bytes: usize, chip: &C) -> usize
    ensures { result ≡ left_over file_bytes (C.Chip.blocks chip.now) C.Chip.per }
{
    file_bytes.saturating_sub(chip.size() * (C::block_pages() * PAGE_BYTES))
}
