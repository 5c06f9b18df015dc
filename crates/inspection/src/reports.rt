// The report on a chip: a line on its shape, a line for each page that is not erased, and a count.
ghost use Rattle.std.specs.Prelude.{◌≡◌, ◌^◌, ◌<◌, [], ◌++◌, length, IfOk, string_bytes, OnOk, slice_index_or};
ghost use Rattle.layout.specs.Page.{answer};
ghost use Rattle.inspection.specs.Arguments.{name_of};
ghost use Rattle.inspection.specs.Descriptions.{described};
ghost use Rattle.inspection.specs.Reports.{kind_of, shape_line, page_line, page_lines, none, counted, total, tally_of, tally_line, report_text, report_text_with};

use crate::arguments::Make;
use crate::descriptions::describe;
use chip::{BlockNumber, Chip, PAGE_BYTES, PageNumber};
use layout::{Cause, Page, check_page};
use std::alloc::{AllocError, Global};
use std::fmt::Write;

// What a page is, or why it is bad.
// (With `check_page` in the loop instead, its step is not proved: `meaning` opens there, and `kind_of` stays shut.)
#[tactic(auto, unfolding(crate::specs::Reports::kind_of))]
fn check(page: &[u8; PAGE_BYTES]) -> Result<Page, Cause>
    ensures { answer result ≡ kind_of page.now }
{
    check_page(page)
}

// How many pages of each kind there are.
#[derive(Clone, Copy, Default)]
struct Tally {
    erased: u32,
    versions: u32,
    deletions: u32,
    registers: u32,
    bad: u32,
}

impl Tally {
    // Counts one page more.
    fn count(&mut self, checked: Result<Page, Cause>)
        requires { total self.old < 2 ^ 31 }
        ensures { self.new ≡ counted (answer checked) self.old }
    {
        match checked {
            Ok(Page::Erased) => self.erased += 1,
            Ok(Page::Data(_)) => self.versions += 1,
            Ok(Page::Deletion(_)) => self.deletions += 1,
            Ok(Page::Register(_)) => self.registers += 1,
            Err(_) => self.bad += 1,
        }
    }
}

// The line on the chip's shape.
fn shape_line(
    heap: Global,
    make: Make,
    blocks: usize,
    block_pages: usize,
    left_over: usize,
) -> Result<String, AllocError>
    ensures { IfOk result (λ text. string_bytes text ≡ shape_line (name_of make) blocks block_pages left_over) }
{
    format!(in heap;
        "{make} chip: {blocks} blocks of {block_pages} pages, {left_over} bytes left over\n"
    )
}

// Writes the line of a page; nothing where the page has none.
fn write_page_line<C: Chip>(
    text: &mut String,
    number: PageNumber,
    checked: Result<Page, Cause>,
) -> Result<(), AllocError>
    ensures { OnOk result (string_bytes text.new ≡ string_bytes text.old ++ page_line C.Chip.per number.0 (described (answer checked))) }
{
    if let Some(words) = describe(*text.allocator(), checked)? {
        let PageNumber(page) = number;
        let (BlockNumber(block), place) = C::split(number);
        writeln!(text, "page {page}, block {block}, place {place}: {words}")?;
    }
    Ok(())
}

// Writes the line on the number of pages.
fn write_tally_line(text: &mut String, pages: u32, tally: Tally) -> Result<(), AllocError>
    ensures { OnOk result (string_bytes text.new ≡ string_bytes text.old ++ tally_line pages tally) }
{
    let Tally {
        erased,
        versions,
        deletions,
        registers,
        bad,
    } = tally;
    writeln!(
        text,
        "{pages} pages: erased {erased}, data {versions}, deletion {deletions}, register {registers}, bad {bad}"
    )
}

// The number of the chip's pages.
fn page_count<C: Chip>(chip: &C) -> u32
    ensures { result ≡ length (C.Chip.pages chip.now) }
{
    (chip.size() * C::block_pages()) as u32
}

// A page of the chip. A read of it, into a buffer of its length, is never refused.
fn read_page<C: Chip>(chip: &C, number: PageNumber) -> [u8; PAGE_BYTES]
    requires { number.0 < length (C.Chip.pages chip.now) }
    ensures { result ≡ slice_index_or (C.Chip.pages chip.now) number.0 [] }
{
    let mut page = [0; PAGE_BYTES];
    let _ = chip.read(number, &mut page);
    page
}

// Writes the lines of the chip's pages, and counts the pages. A chip reads a page by its number only.
fn write_page_lines<C: Chip>(text: &mut String, chip: &C) -> Result<Tally, AllocError>
    ensures tally { IfOk result (λ tally. tally ≡ tally_of (C.Chip.pages chip.now)) }
    ensures text { OnOk result (string_bytes text.new ≡ string_bytes text.old ++ page_lines C.Chip.per 0 (C.Chip.pages chip.now)) }
{
    let mut tally = Tally::default();
    for index in 0..page_count(chip) {
        let number = PageNumber(index);
        let checked = check(&read_page(chip, number));
        write_page_line::<C>(text, number, checked)?;
        tally.count(checked);
    }
    Ok(tally)
}

// All that the program prints of a chip.
pub fn report<C: Chip>(
    heap: Global,
    make: Make,
    left_over: usize,
    chip: &C,
) -> Result<String, AllocError>
    ensures { IfOk result (λ text. string_bytes text ≡ report_text (name_of make) (C.Chip.blocks chip.now) C.Chip.per left_over (C.Chip.pages chip.now)) }
{
    report_with(heap, make, left_over, chip, "")
}

// All that is said of a chip where lines are given that stand between the lines of pages and the count.
pub fn report_with<C: Chip>(
    heap: Global,
    make: Make,
    left_over: usize,
    chip: &C,
    middle: &str,
) -> Result<String, AllocError>
    ensures { IfOk result (λ text. string_bytes text ≡ report_text_with (name_of make) (C.Chip.blocks chip.now) C.Chip.per left_over (C.Chip.pages chip.now) middle.now) }
{
    let mut text = shape_line(heap, make, chip.size(), C::block_pages(), left_over)?;
    let tally = write_page_lines(&mut text, chip)?;
    text.push_str(middle)?;
    write_tally_line(&mut text, page_count(chip), tally)?;
    Ok(text)
}
