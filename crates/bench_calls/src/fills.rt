// The 512 bytes that a write fills a sector with.
ghost use Rattle.std.specs.Prelude.{◌≡◌, IfOk};
ghost use Rattle.bench_calls.specs.Fills.{fills_to};

use std::alloc::{AllocError, Global};

// Bytes of a sector.
pub const SECTOR_BYTES: usize = 512;

// For each byte the sector that is filled with it.
pub fn all_fills(heap: Global) -> Result<Vec<[u8; SECTOR_BYTES]>, AllocError>
    ensures { IfOk result (λ fills. fills.items ≡ fills_to 256) }
{
    let mut fills = Vec::with_capacity(heap, 256)?;
    // No chain: tried `(0..=u8::MAX).map(..).collect(heap)`; `search (rules, ranges)` proves its length alone.
    for byte in 0..256u16 {
        fills.push([byte as u8; SECTOR_BYTES])?;
    }
    Ok(fills)
}
