// Pages for tests; none where a value is outside its limits.
#![tactic(auto)]

ghost use Rattle.std.specs.Prelude.{◌≡◌};
ghost use Rattle.std.specs.Option.{option_map};
ghost use Rattle.test_pages.specs.Pages.{numbers_of, version_from, data_page_from, deletion_page_from, register_page_from};

use chip::{PAGE_BYTES, SectorNumber};
use layout_write::{write_data, write_deletion, write_register};
use limits::{Birth, Held, Label, Register, Sector, Version};

pub fn version(sector: u32, birth: u32) -> Option<Version>
    ensures { option_map numbers_of result ≡ version_from sector birth }
{
    let sector = Sector::new(SectorNumber(sector))?;
    let birth = Birth::new(birth)?;
    Some(Version { sector, birth })
}

pub fn register_page(birth: u32, held: &[u32], label: &[u8]) -> Option<[u8; PAGE_BYTES]>
    ensures { result ≡ register_page_from birth held.now label.now }
{
    let held = Held::new(held)?;
    let label = Label::new(label)?;
    let mut page = [0; PAGE_BYTES];
    write_register(&Register::new(Birth::new(birth)?, held, label)?, &mut page);
    Some(page)
}

pub fn data_page(sector: u32, birth: u32, bytes: &[u8; 512]) -> Option<[u8; PAGE_BYTES]>
    ensures { result ≡ data_page_from sector birth bytes.now }
{
    let mut page = [0; PAGE_BYTES];
    write_data(version(sector, birth)?, bytes, &mut page);
    Some(page)
}

pub fn deletion_page(sector: u32, birth: u32) -> Option<[u8; PAGE_BYTES]>
    ensures { result ≡ deletion_page_from sector birth }
{
    let mut page = [0; PAGE_BYTES];
    write_deletion(version(sector, birth)?, &mut page);
    Some(page)
}
