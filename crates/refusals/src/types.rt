use chip::PageNumber;
use layout::Cause;

#[derive(Clone, Copy, Debug, PartialEq, Eq)]
pub enum Refusal {
    // The store is open.
    StoreOpen,
    // The store is closed.
    StoreClosed,
    // Under 2 blocks, or over 2048 pages.
    ChipSize,
    // The label is over 32 bytes.
    LabelLength,
    // The lowest page that is neither erased nor well formed.
    BadPage { page: PageNumber, cause: Cause },
    // No register, two equal births, no wholly erased block, or too many needed versions.
    NotAStore,
    // The sector is over 2047.
    NoSuchSector,
    // The buffer has not the length that the call asks for.
    BufferLength,
    // The number is not held.
    NotHeld,
    // Eight numbers are held.
    TooManyHeld,
    // The clock is at its last.
    OutOfTicks,
    // More would be needed than the chip can keep.
    Full,
}
