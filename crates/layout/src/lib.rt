// What a page means, read from its 528 bytes.
#![tactic(auto)]

pub mod pages;
pub mod parts;

ghost use Rattle.std.specs.Prelude.{◌≡◌, ◌+◌, ◌*◌, ◌≤◌, true, length, IfOk, if◌then◌else◌, Some, None};
ghost use Rattle.std.specs.Option.{option_map};
ghost use Rattle.limits.specs.Numbers.{within, rising};
ghost use Rattle.limits.specs.Values.{held_of, label_of};
ghost use Rattle.layout.specs.Bytes.{all_zero, u16_at, u32_at, words};
ghost use Rattle.layout.specs.Parts.{unit_of, most_of, fits, end_of, part_at, bytes_of};
ghost use Rattle.layout.specs.Kinds.{byte_of, Decodes};
ghost use Rattle.layout.specs.Page as layout;
ghost use Rattle.layout.specs.Page.{go_together, tag_read, tag_of, summary, meaning, register_meaning, register_answer, PartsOf, page_meaning, answer, cause_number, fault_number};
ghost use Rattle.layout.specs.declared.pages.Page.TheVariants as page;

use chip::{PAGE_BYTES, SectorNumber, is_erased};
use limits::{Birth, Held, LABEL_BYTES, Label, MOST_HELD, Register, Sector, Version, is_rising};
pub use pages::{Cause, Page, PageKind, RegisterFault, Tag, UnknownKind};
pub use parts::{PartKind, RegisterPart, RegisterParts};

// Bytes of a page before its tag.
pub const DATA_BYTES: usize = 512;

// Where the tag has its fields.
const KIND: usize = 512;

const AFTER_KIND: usize = 513;

const SECTOR: usize = 514;

const BIRTH: usize = 516;

const AFTER_BIRTH: usize = 520;

// The sector in the tag of a register.
pub const NO_SECTOR: u16 = 65535;

// Bytes of a pair of offset and length.
pub const PAIR_BYTES: usize = 4;

// Bytes of a held number.
pub const NUMBER_BYTES: usize = 4;

fn u16_at(bytes: &[u8], i: usize) -> u16
    requires { i + 2 ≤ length bytes.now }
    ensures { result ≡ u16_at bytes.now i }
{
    u16::from_le_bytes([bytes[i], bytes[i + 1]])
}

fn u32_at(bytes: &[u8], i: usize) -> u32
    requires { i + 4 ≤ length bytes.now }
    ensures { result ≡ u32_at bytes.now i }
{
    u32::from_le_bytes([bytes[i], bytes[i + 1], bytes[i + 2], bytes[i + 3]])
}

fn all_zero(bytes: &[u8]) -> bool
    ensures { result ≡ all_zero bytes.now }
{
    bytes.iter().all(|byte| *byte == 0)
}

// (A match for each fact: a kind's unit and greatest number are asked apart.)
impl PartKind {
    // Bytes of a unit.
    fn unit(self) -> usize
        ensures is { result ≡ unit_of self }
        ensures some { 1 ≤ result }
    {
        match self {
            PartKind::Held => NUMBER_BYTES,
            PartKind::Label => 1,
        }
    }

    // Greatest number of units.
    fn most(self) -> usize
        ensures { result ≡ most_of self }
    {
        match self {
            PartKind::Held => MOST_HELD,
            PartKind::Label => LABEL_BYTES,
        }
    }

    fn fits(self, length: usize) -> bool
        ensures { result ≡ fits self length }
    {
        let unit = self.unit();
        length % unit == 0 && length / unit <= self.most()
    }
}

// Where the parts of a page end, if they lie as they must.
fn parts_end(page: &[u8; PAGE_BYTES], kinds: &[PartKind]) -> Option<usize>
    requires { 4 * length kinds.now ≤ 512 }
    ensures { result ≡ end_of kinds.now page.now }
{
    let mut at = PAIR_BYTES * kinds.len();
    for (i, kind) in kinds.iter().enumerate() {
        let offset = u16_at(page, PAIR_BYTES * i) as usize;
        let length = u16_at(page, PAIR_BYTES * i + 2) as usize;
        let can_be = kind.fits(length);
        if offset != at || !can_be {
            return None;
        }
        at += length;
    }
    Some(at)
}

// The part that pair `n` gives: its offset, and its bytes.
fn part<'a>(page: &'a [u8; PAGE_BYTES], n: usize) -> (usize, &'a [u8])
    requires { (4 * n + 4 ≤ 528) × (u16_at page.now (4 * n) + u16_at page.now (4 * n + 2) ≤ 528) }
    ensures offset { result.0 ≡ u16_at page.now (4 * n) }
    ensures bytes { result.1.now ≡ part_at page.now n }
{
    let offset = u16_at(page, PAIR_BYTES * n) as usize;
    let length = u16_at(page, PAIR_BYTES * n + 2) as usize;
    (offset, &page[offset..offset + length])
}

// The parts of a register, in the order of their pairs.
const REGISTER_KINDS: [PartKind; 2] = [PartKind::Held, PartKind::Label];

// Copies the held numbers.
fn copy_held(bytes: &[u8]) -> Held
    requires { length bytes.now ≤ 32 }
    ensures { held_of result ≡ words bytes.now }
{
    let mut items = [0; MOST_HELD];
    for (i, word) in bytes.chunks_exact(NUMBER_BYTES).enumerate() {
        items[i] = u32_at(word, 0);
    }
    Held {
        items,
        len: bytes.len() / NUMBER_BYTES,
    }
}

// Whether the held numbers rise strictly, from 1 to at most `birth`.
fn rises(held: &[u8], birth: Birth) -> bool
    requires { length held.now ≤ 32 }
    ensures { result ≡ rising 0 birth.number (words held.now) }
{
    is_rising(copy_held(held).as_slice(), birth.number)
}

// Reads the data of a register page; the parts are lent from the page.
pub fn read_register<'a>(
    page: &'a [u8; PAGE_BYTES],
    birth: Birth,
) -> Result<RegisterParts<'a>, RegisterFault>
    ensures meaning { register_answer birth.number result ≡ register_meaning birth.number page.now }
    ensures parts { IfOk result (PartsOf birth.number page.now) }
{
    let end = parts_end(page, &REGISTER_KINDS).ok_or(RegisterFault::Pairs)?;
    let (held_offset, held) = part(page, 0);
    let (label_offset, label) = part(page, 1);
    if !rises(held, birth) {
        return Err(RegisterFault::Held);
    }
    if !all_zero(&page[end..DATA_BYTES]) {
        return Err(RegisterFault::Tail);
    }
    Ok(RegisterParts {
        held: RegisterPart::Held {
            offset: held_offset,
            bytes: held,
        },
        label: RegisterPart::Label {
            offset: label_offset,
            bytes: label,
        },
    })
}

impl TryFrom<u8> for PageKind {
    type Error = UnknownKind;

    ghost try_from_gives = { Decodes };

    fn try_from(byte: u8) -> Result<Self, UnknownKind> {
        match byte {
            1 => Ok(PageKind::Data),
            2 => Ok(PageKind::Deletion),
            3 => Ok(PageKind::Register),
            _ => Err(UnknownKind(byte)),
        }
    }
}

impl From<PageKind> for u8 {
    ghost from_gives = { λ kind byte. byte ≡ byte_of kind };

    fn from(kind: PageKind) -> u8 {
        kind as u8
    }
}

fn sector_of(number: u16) -> Option<Sector>
    ensures { option_map (λ s. s.number) result ≡ within 0 2047 number }
{
    Sector::new(SectorNumber(u32::from(number)))
}

// The tag of a programmed page, if kind, sector and birth go together.
fn tag_with(kind: u8, sector: u16, birth: u32) -> Option<Tag>
    ensures { option_map tag_of result ≡ (if go_together kind sector birth then Some (kind, sector, birth) else None) }
{
    let birth = Birth::new(birth)?;
    match PageKind::try_from(kind).ok()? {
        PageKind::Data => Some(Tag::Data(Version {
            sector: sector_of(sector)?,
            birth,
        })),
        PageKind::Deletion => Some(Tag::Deletion(Version {
            sector: sector_of(sector)?,
            birth,
        })),
        PageKind::Register => (sector == NO_SECTOR).then_some(Tag::Register(birth)),
    }
}

// The tag of a page, if the page is erased or its tag is sound.
fn read_tag(page: &[u8; PAGE_BYTES]) -> Option<Tag>
    ensures { option_map tag_of result ≡ tag_read page.now }
{
    if is_erased(page) {
        return Some(Tag::Erased);
    }
    if page[AFTER_KIND] != 0 {
        return None;
    }
    if !all_zero(&page[AFTER_BIRTH..PAGE_BYTES]) {
        return None;
    }
    tag_with(page[KIND], u16_at(page, SECTOR), u32_at(page, BIRTH))
}

impl From<RegisterFault> for Cause {
    ghost from_gives = { λ f r. cause_number r ≡ fault_number f };

    fn from(f: RegisterFault) -> Cause {
        match f {
            RegisterFault::Pairs => Cause::Pairs,
            RegisterFault::Held => Cause::Held,
            RegisterFault::Tail => Cause::Tail,
        }
    }
}

impl Cause {
    // (By a match: with discriminants, an edit that gives one cause the number of another would not compile.)
    pub fn number(self) -> u8
        ensures { result ≡ cause_number self }
    {
        match self {
            Cause::Tag => 30,
            Cause::Deletion => 31,
            Cause::Pairs => 32,
            Cause::Held => 33,
            Cause::Tail => 34,
        }
    }
}

impl<'a> RegisterPart<'a> {
    pub fn bytes(self) -> &'a [u8]
        ensures { result.now ≡ bytes_of self.entry }
    {
        match self {
            RegisterPart::Held { bytes, .. } | RegisterPart::Label { bytes, .. } => bytes,
        }
    }
}

// Copies the label.
fn copy_label(text: &[u8]) -> Label
    requires { length text.now ≤ 32 }
    ensures { label_of result ≡ text.now }
{
    Label::new(text).unwrap()
}

// Copies a register's parts.
fn copy_register(birth: Birth, parts: RegisterParts) -> Register
    requires few { length (bytes_of parts.held) ≤ 32 }
    requires known { rising 0 birth.number (words (bytes_of parts.held)) ≡ true }
    requires short { length (bytes_of parts.label) ≤ 32 }
    ensures { page_meaning (page.Register result) ≡ layout.Register birth.number (words (bytes_of parts.entry.held)) (bytes_of parts.entry.label) }
{
    let held = copy_held(parts.held.bytes());
    let label = copy_label(parts.label.bytes());
    Register { birth, held, label }
}

// What the page is, or why it is bad.
pub fn check_page(page: &[u8; PAGE_BYTES]) -> Result<Page, Cause>
    ensures { answer result ≡ meaning page.now }
{
    match read_tag(page).ok_or(Cause::Tag)? {
        Tag::Erased => Ok(Page::Erased),
        Tag::Data(version) => Ok(Page::Data(version)),
        Tag::Deletion(version) => {
            if all_zero(&page[0..DATA_BYTES]) {
                Ok(Page::Deletion(version))
            } else {
                Err(Cause::Deletion)
            }
        }
        Tag::Register(birth) => {
            let parts = read_register(page, birth)?;
            Ok(Page::Register(copy_register(birth, parts)))
        }
    }
}

impl Page {
    // Kind, sector and birth.
    pub fn tag(&self) -> Tag
        ensures { tag_of result ≡ summary (page_meaning self.now) }
    {
        match self {
            Page::Erased => Tag::Erased,
            Page::Data(version) => Tag::Data(*version),
            Page::Deletion(version) => Tag::Deletion(*version),
            Page::Register(register) => Tag::Register(register.birth),
        }
    }
}
