// The lines on a store that mount has opened.
ghost use Rattle.std.specs.Prelude.{◌≡◌, [], ◌∷◌, reverse, length, IfOk, string_bytes};
ghost use Rattle.rules.specs.Told.{count_value};
ghost use Rattle.store.specs.Views.{seen, reading_of, capacity_of};
ghost use Rattle.mount_report.specs.Lines.{granted_line, opened_text};

use crate::mounted::Mounted;
use chip::Chip;
use inspection::descriptions::{held_text, label_text};
use limits::{LABEL_BYTES, MOST_HELD};
use rules::{Count, Tick};
use std::alloc::{AllocError, Global};

// The line on a mount that is granted.
fn granted_line(
    heap: Global,
    clock: Tick,
    held: &[u32],
    label: &[u8],
    count: Count,
) -> Result<String, AllocError>
    ensures { IfOk result (λ text. string_bytes text ≡ granted_line clock.0 held.now label.now count.needed count.capacity) }
{
    let clock = clock.0;
    let held = held_text(heap, held)?;
    let label = label_text(heap, label)?;
    let Count { needed, capacity } = count;
    format!(in heap;
        "mount: 0, clock {clock}, held {held}, label {label}, needed {needed} of {capacity}\n"
    )
}

impl<C: Chip> Mounted<'_, C> {
    // The held numbers, rising. (One function for these and the label would take the call, the room and the
    // element as parameters, and be longer than both.)
    fn held_numbers(&self) -> Result<Vec<u32>, AllocError>
        ensures { IfOk result (λ numbers. numbers.items ≡ reverse (reading_of (seen C.Chip self.now.store.now)).held) }
    {
        let mut buffer = [0; MOST_HELD];
        let count = self.store.held(&mut buffer).unwrap_or(0);
        Vec::from_slice(self.heap, &buffer[0..count])
    }

    fn label_bytes(&self) -> Result<Vec<u8>, AllocError>
        ensures { IfOk result (λ bytes. bytes.items ≡ (reading_of (seen C.Chip self.now.store.now)).label) }
    {
        let mut buffer = [0; LABEL_BYTES];
        let size = self.store.label(&mut buffer).unwrap_or(0);
        Vec::from_slice(self.heap, &buffer[0..size])
    }

    // The needed versions and the capacity.
    fn count(&self) -> Count
        ensures { count_value result ≡ length (reading_of (seen C.Chip self.now.store.now)).versions ∷ capacity_of (seen C.Chip self.now.store.now) ∷ [] }
    {
        let none = Count {
            needed: 0,
            capacity: 0,
        };
        self.store.count().unwrap_or(none)
    }

    // All lines, by the clock that mount answered.
    pub(crate) fn text(&self, clock: Tick) -> Result<String, AllocError>
        requires { clock.0 ≡ (reading_of (seen C.Chip self.now.store.now)).clock }
        ensures { IfOk result (λ text. string_bytes text ≡ opened_text (capacity_of (seen C.Chip self.now.store.now)) (reading_of (seen C.Chip self.now.store.now))) }
    {
        let held = self.held_numbers()?;
        let label = self.label_bytes()?;
        let count = self.count();
        let mut text = granted_line(self.heap, clock, held.as_slice(), label.as_slice(), count)?;
        let present = self.list_line(None)?;
        text.push_str(present.as_str())?;
        self.push_state_lines(&mut text, held.as_slice())?;
        Ok(text)
    }
}
