// What the parts of a register are.

// A kind of part.
#[derive(Clone, Copy)]
pub enum PartKind {
    Held,
    Label,
}

// A part of a register page: where it begins, and its bytes, which are the page's own. (As variants and not with
// a field for the kind, so that who matches a part names what it is.)
#[derive(Clone, Copy)]
pub enum RegisterPart<'a> {
    Held { offset: usize, bytes: &'a [u8] },
    Label { offset: usize, bytes: &'a [u8] },
}

// The parts of a register page.
#[derive(Clone, Copy)]
pub struct RegisterParts<'a> {
    pub held: RegisterPart<'a>,
    pub label: RegisterPart<'a>,
}
