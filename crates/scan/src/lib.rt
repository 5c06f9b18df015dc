// Reads all pages of a chip.
#![tactic(auto)]

ghost use Rattle.std.specs.Prelude.{◌≡◌, ◌<◌, [], map, length, slice_index_or};
ghost use Rattle.std.specs.Option.{option_map};
ghost use Rattle.limits.specs.Values.{register_values};
ghost use Rattle.layout.specs.Page.{page_meaning, tag_of};
ghost use Rattle.scan.specs.Scan.{younger, tags_read, scanned, answer, Checked};

use chip::{Chip, PAGE_BYTES, PageNumber};
use layout::{Cause, Page, Tag, check_page};
use limits::Register;

// A page that is neither erased nor well formed.
#[derive(Clone, Copy, Debug, PartialEq, Eq)]
pub struct BadPage {
    pub page: PageNumber,
    pub cause: Cause,
}

// Reads and checks one page.
fn check_at<C: Chip>(chip: &C, number: u32) -> Result<Page, BadPage>
    requires { number < length (C.Chip.pages chip.now) }
    ensures { Checked (slice_index_or (C.Chip.pages chip.now) number []) number result }
{
    let page = PageNumber(number);
    let mut buffer = [0; PAGE_BYTES];
    // The page is there, and the buffer as long as a page.
    let _ = chip.read(page, &mut buffer);
    check_page(&buffer).map_err(|cause| BadPage { page, cause })
}

// The younger of the register found so far and of a page, if that is a register.
fn younger(best: Option<Register>, page: Page) -> Option<Register>
    ensures { option_map register_values result ≡ younger (option_map register_values best) (page_meaning page) }
{
    let Page::Register(register) = page else {
        return best;
    };
    match best {
        Some(former) if former.birth.number >= register.birth.number => Some(former),
        _ => Some(register),
    }
}

// Reads each page once, in the order of their numbers, up to the lowest bad one, and writes kind,
// sector and birth of each into the table, as far as it reaches. Answers the youngest register.
pub fn scan<C: Chip>(chip: &C, table: &mut [Tag]) -> Result<Option<Register>, BadPage>
    ensures answer { answer result ≡ scanned (C.Chip.pages chip.now) }
    ensures table { map tag_of table.new ≡ tags_read (C.Chip.pages chip.now) (map tag_of table.old) }
{
    let count = chip.size() * C::block_pages();
    let mut best = None;
    for k in 0..count {
        let page = check_at(chip, k as u32)?;
        // A write through `get_mut` leaves no fact of the table: tried.
        if k < table.len() {
            table[k] = page.tag();
        }
        best = younger(best, page);
    }
    Ok(best)
}
