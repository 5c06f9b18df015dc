// Writes pages.
#![tactic(auto)]

ghost use Rattle.std.specs.Prelude.{◌≡◌, ◌+◌, ◌*◌, ◌≤◌, [], ◌∷◌, ◌++◌, length, take, replicate};
ghost use Rattle.std.proofs.Math.Seq.{paste};
ghost use Rattle.std.specs.List.{flat_map};
ghost use Rattle.limits.specs.Values.{held_of, label_of};
ghost use Rattle.layout.specs.Kinds.{byte_of};
ghost use Rattle.layout.specs.Page as layout;
ghost use Rattle.layout.specs.Page.{meaning};
ghost use Rattle.layout_write.specs.Laws.{ReadAgain, WrittenAgain};
ghost use Rattle.layout_write.specs.Written.{le16, le32, tag_bytes, data_page, deletion_page, pairs_from, whole, register_data, register_page, contents};

use chip::PAGE_BYTES;
use layout::{DATA_BYTES, NO_SECTOR, NUMBER_BYTES, PAIR_BYTES, PageKind};
use limits::{Held, Register, Version};

// Copies bytes to a place.
fn put(out: &mut [u8], at: usize, bytes: &[u8])
    requires { at + length bytes.now ≤ length out.old }
    ensures { out.new ≡ paste out.old at bytes.now (length bytes.now) }
{
    out[at..at + bytes.len()].copy_from_slice(bytes);
}

fn put_tag(kind: PageKind, sector: u16, birth: u32, tag: &mut [u8])
    requires { length tag.old ≡ 16 }
    ensures { tag.new ≡ tag_bytes (byte_of kind) sector birth }
{
    let [s0, s1] = sector.to_le_bytes();
    let [b0, b1, b2, b3] = birth.to_le_bytes();
    let kind = u8::from(kind);
    tag.copy_from_slice(&[kind, 0, s0, s1, b0, b1, b2, b3, 0, 0, 0, 0, 0, 0, 0, 0]);
}

fn clear(bytes: &mut [u8])
    requires { length bytes.old ≡ 512 }
    ensures { bytes.new ≡ replicate 512 0 }
{
    bytes.fill(0);
}

// Writes a version's data and its tag.
pub fn write_data(version: Version, bytes: &[u8; DATA_BYTES], page: &mut [u8; PAGE_BYTES])
    ensures writes { page.new ≡ data_page version.sector.number version.birth.number bytes.now }
    ensures reads { meaning page.new ≡ layout.Data version.sector.number version.birth.number }
{
    page[0..DATA_BYTES].copy_from_slice(bytes);
    put_tag(
        PageKind::Data,
        version.sector.number,
        version.birth.number,
        &mut page[DATA_BYTES..PAGE_BYTES],
    );
}

// Writes a deletion.
pub fn write_deletion(version: Version, page: &mut [u8; PAGE_BYTES])
    ensures writes { page.new ≡ deletion_page version.sector.number version.birth.number }
    ensures reads { meaning page.new ≡ layout.Deletion version.sector.number version.birth.number }
{
    clear(&mut page[0..DATA_BYTES]);
    put_tag(
        PageKind::Deletion,
        version.sector.number,
        version.birth.number,
        &mut page[DATA_BYTES..PAGE_BYTES],
    );
}

// The held numbers, four bytes each.
fn held_bytes(given: &Held) -> [u8; 32]
    ensures { take (4 * given.now.len) result ≡ flat_map le32 (held_of given.now) }
{
    let mut out = [0; 32];
    for (i, number) in given.as_slice().iter().enumerate() {
        put(&mut out, NUMBER_BYTES * i, &number.to_le_bytes());
    }
    out
}

// The pair of a part.
fn pair(offset: usize, size: usize) -> [u8; PAIR_BYTES]
    requires { (offset ≤ 512) × (size ≤ 512) }
    ensures { result ≡ le16 offset ++ le16 size }
{
    let [o0, o1] = (offset as u16).to_le_bytes();
    let [n0, n1] = (size as u16).to_le_bytes();
    [o0, o1, n0, n1]
}

// The pairs of the parts, from the first byte on. (Three functions ask that all parts fit; a type that says so
// would be made and taken apart in `put_register` alone.)
fn put_pairs(out: &mut [u8], parts: &[&[u8]])
    requires { (length out.old ≡ 512) × (4 * length parts.now + length (whole (contents parts.now)) ≤ 512) }
    ensures { out.new ≡ paste out.old 0 (pairs_from (4 * length parts.now) (contents parts.now)) (4 * length parts.now) }
{
    let mut at = PAIR_BYTES * parts.len();
    for (i, part) in parts.iter().enumerate() {
        put(out, PAIR_BYTES * i, &pair(at, part.len()));
        at += part.len();
    }
}

// The parts, from where their pairs end.
fn put_parts(out: &mut [u8], parts: &[&[u8]])
    requires { (length out.old ≡ 512) × (4 * length parts.now + length (whole (contents parts.now)) ≤ 512) }
    ensures { out.new ≡ paste out.old (4 * length parts.now) (whole (contents parts.now)) (length (whole (contents parts.now))) }
{
    let mut at = PAIR_BYTES * parts.len();
    for part in parts {
        put(out, at, part);
        at += part.len();
    }
}

// The data of a register with these parts.
fn put_register(out: &mut [u8], parts: &[&[u8]])
    requires { (length out.old ≡ 512) × (4 * length parts.now + length (whole (contents parts.now)) ≤ 512) }
    ensures { out.new ≡ register_data (contents parts.now) }
{
    clear(out);
    put_pairs(out, parts);
    put_parts(out, parts);
}

// The data of a register with two parts.
fn put_both<'x>(out: &mut [u8], first: &'x [u8], second: &'x [u8])
    requires { (length out.old ≡ 512) × ((length first.now ≤ 32) × (length second.now ≤ 32)) }
    ensures { out.new ≡ register_data (first.now ∷ second.now ∷ []) }
{
    put_register(out, &[first, second]);
}

// Writes a register.
pub fn write_register(register: &Register, page: &mut [u8; PAGE_BYTES])
    ensures writes { page.new ≡ register_page register.now.birth.number (held_of register.now.held) (label_of register.now.label) }
    ensures reads { meaning page.new ≡ layout.Register register.now.birth.number (held_of register.now.held) (label_of register.now.label) }
{
    let held = held_bytes(&register.held);
    let size = NUMBER_BYTES * register.held.len;
    put_both(
        &mut page[0..DATA_BYTES],
        &held[0..size],
        register.label.as_slice(),
    );
    put_tag(
        PageKind::Register,
        NO_SECTOR,
        register.birth.number,
        &mut page[DATA_BYTES..PAGE_BYTES],
    );
}

// Reading gives back what was written.
pub fn reads_what_was_written()
    ensures { ReadAgain }
{}

// Every page that is neither erased nor bad is what is written for its meaning.
pub fn pages_are_as_written()
    ensures { WrittenAgain }
{}
