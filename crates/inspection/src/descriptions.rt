// What the line of a page says of it.
ghost use Rattle.std.specs.Prelude.{◌≡◌, ◌++◌, Some, IfOk, OnOk, string_bytes};
ghost use Rattle.std.specs.Option.{option_map};
ghost use Rattle.layout.specs.Page.{answer, cause_number};
ghost use Rattle.limits.specs.Values.{held_of, label_of};
ghost use Rattle.inspection.specs.Descriptions.{version_text, held_text, is_plain, escaped, quoted, register_text, cause_text, described};

use layout::{Cause, Page};
use limits::{Register, Version};
use std::alloc::{AllocError, Global};
use std::fmt;
use std::fmt::Write;

// Held numbers with one space between, or `none`.
#[derive(Drop)]
struct HeldNumbers<'a>(&'a [u32]);

impl fmt::Display for HeldNumbers<'_> {
    ghost output = { λ held. Some (held_text held.0.now) };

    fn fmt<W: fmt::Write>(&self, f: &mut fmt::Formatter<W>) -> fmt::Result {
        let Some((first, others)) = self.0.split_first() else {
            return f.write_str("none");
        };
        write!(f, "{first}")?;
        for n in others {
            write!(f, " {n}")?;
        }
        Ok(())
    }
}

// The held numbers with one space between, or `none`.
pub fn held_text(heap: Global, held: &[u32]) -> Result<String, AllocError>
    ensures { IfOk result (λ text. string_bytes text ≡ held_text held.now) }
{
    HeldNumbers(held).to_string(heap)
}

fn is_plain(byte: u8) -> bool
    ensures { result ≡ is_plain byte }
{
    matches!(byte, 0x20..=0x7E) && byte != b'"' && byte != b'\\'
}

// Appends a byte of a label: as itself where it is plain, otherwise as `\xNN`.
fn push_escaped(text: &mut String, byte: u8) -> Result<(), AllocError>
    ensures { OnOk result (string_bytes text.new ≡ string_bytes text.old ++ escaped byte) }
{
    if is_plain(byte) {
        return text.push(char::from(byte));
    }
    write!(text, "\\x{byte:02X}")
}

// The label in double quotes. (A `Display` that writes each byte takes four times as long on a long label.)
pub fn label_text(heap: Global, label: &[u8]) -> Result<String, AllocError>
    ensures { IfOk result (λ text. string_bytes text ≡ quoted label.now) }
{
    let mut text = String::from_str(heap, "\"")?;
    for byte in label {
        push_escaped(&mut text, *byte)?;
    }
    text.push_str("\"")?;
    Ok(text)
}

// (The texts are Strings, so they take the heap: `describe` answers None for no line, and a Display can't.)
fn version_text(heap: Global, kind: &str, version: Version) -> Result<String, AllocError>
    ensures { IfOk result (λ text. string_bytes text ≡ version_text kind.now version.sector.number version.birth.number) }
{
    let sector = version.sector.number;
    let birth = version.birth.number;
    format!(in heap; "{kind}, sector {sector}, birth {birth}")
}

fn register_text(heap: Global, register: Register) -> Result<String, AllocError>
    ensures { IfOk result (λ text. string_bytes text ≡ register_text register.birth.number (held_of register.held) (label_of register.label)) }
{
    let birth = register.birth.number;
    let held = HeldNumbers(register.held.as_slice());
    let label = label_text(heap, register.label.as_slice())?;
    format!(in heap; "register, birth {birth}, held {held}, label {label}")
}

fn cause_text(heap: Global, cause: Cause) -> Result<String, AllocError>
    ensures { IfOk result (λ words. string_bytes words ≡ cause_text (cause_number cause)) }
{
    let number = cause.number();
    format!(in heap; "bad, cause {number}")
}

// What the line of a page says of it, by the check of the page; an erased page has no line.
pub fn describe(heap: Global, checked: Result<Page, Cause>) -> Result<Option<String>, AllocError>
    ensures { IfOk result (λ words. option_map string_bytes words ≡ described (answer checked)) }
{
    let words = match checked {
        Ok(Page::Erased) => return Ok(None),
        Ok(Page::Data(version)) => version_text(heap, "data", version)?,
        Ok(Page::Deletion(version)) => version_text(heap, "deletion", version)?,
        Ok(Page::Register(register)) => register_text(heap, register)?,
        Err(cause) => cause_text(heap, cause)?,
    };
    Ok(Some(words))
}
