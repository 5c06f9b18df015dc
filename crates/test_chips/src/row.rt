// The bytes of a page, as memory for a chip.
ghost use Rattle.std.specs.Prelude.{◌≡◌, length};
ghost use Rattle.chip.specs.Pages.{erased_page};

use chip::PAGE_BYTES;

#[derive(Clone, Copy)]
pub struct Row {
    bytes: [u8; PAGE_BYTES],
    ghost whole: { length bytes ≡ 528 },
}

fn erased_bytes() -> [u8; PAGE_BYTES]
    ensures { result ≡ erased_page }
{
    [0xFF; PAGE_BYTES]
}

impl Row {
    pub fn new(bytes: [u8; PAGE_BYTES]) -> Row
        ensures { result.bytes ≡ bytes }
    {
        Row { bytes }
    }

    pub fn erased() -> Row
        ensures { result.bytes ≡ erased_page }
    {
        Row::new(erased_bytes())
    }

    pub fn bytes(self) -> [u8; PAGE_BYTES]
        ensures { result ≡ self.bytes }
    {
        self.bytes
    }
}
