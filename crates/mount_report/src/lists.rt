// Lists of the sectors that hold data. A state is that of a frozen tick, or the present where there is none.
ghost use Rattle.std.specs.Prelude.{◌≡◌, ℕ, true, ◌<◌, ◌++◌, length, IfOk, string_bytes, OnOk, slice_index};
ghost use Rattle.readings.specs.Versions.{has};
ghost use Rattle.rules.specs.Calls.{born_at};
ghost use Rattle.rules.specs.Told.{since_value};
ghost use Rattle.store.specs.Views.{seen, reading_of};
ghost use Rattle.mount_report.specs.Lines.{Known, version_in, entry, entries, or_none, state_name, list_line, state_lines};

use crate::mounted::Mounted;
use chip::{Chip, SectorNumber};
use limits::LAST_SECTOR;
use rules::Tick;
use std::alloc::{AllocError, Global};

// The entry of a sector, after a space; empty where the sector has no data.
fn entry_text(heap: Global, sector: u32, birth: Option<Tick>) -> Result<String, AllocError>
    ensures { IfOk result (λ text. string_bytes text ≡ entry sector (since_value birth)) }
{
    match birth {
        Some(tick) => {
            let birth = tick.0;
            format!(in heap; " {sector}/{birth}")
        }
        None => Ok(String::new(heap)),
    }
}

// The entries, or ` none` where there is none.
fn or_none(heap: Global, entries: String) -> Result<String, AllocError>
    ensures { IfOk result (λ text. string_bytes text ≡ or_none (string_bytes entries)) }
{
    if entries.is_empty() {
        String::from_str(heap, " none")
    } else {
        Ok(entries)
    }
}

fn name_text(heap: Global, frozen: Option<Tick>) -> Result<String, AllocError>
    ensures { IfOk result (λ text. string_bytes text ≡ state_name frozen) }
{
    match frozen {
        None => String::from_str(heap, "present"),
        Some(tick) => {
            let number = tick.0;
            format!(in heap; "state {number}")
        }
    }
}

// That the state is held is a `requires` of each: a type for a held state of this store would be made for one
// line and taken apart at once.
impl<C: Chip> Mounted<'_, C> {
    // The birth of what a sector holds in a state.
    fn birth_in(&self, frozen: Option<Tick>, sector: u32) -> Option<Tick>
        requires known { Known (reading_of (seen C.Chip self.now.store.now)) frozen }
        requires sector { sector < 2048 }
        ensures { since_value result ≡ born_at (version_in (reading_of (seen C.Chip self.now.store.now)) frozen sector) }
    {
        let sector = SectorNumber(sector);
        match frozen {
            None => self.store.since(sector).unwrap_or(None),
            Some(tick) => self.store.since_in(tick, sector).unwrap_or(None),
        }
    }

    // The entries of all sectors.
    fn entries_text(&self, frozen: Option<Tick>) -> Result<String, AllocError>
        requires { Known (reading_of (seen C.Chip self.now.store.now)) frozen }
        ensures { IfOk result (λ text. string_bytes text ≡ entries (reading_of (seen C.Chip self.now.store.now)) frozen 2048) }
    {
        let mut text = String::new(self.heap);
        // Over numbers: a store is asked for each sector by its number.
        for sector in 0..=LAST_SECTOR {
            let entry = entry_text(self.heap, sector, self.birth_in(frozen, sector))?;
            text.push_str(entry.as_str())?;
        }
        Ok(text)
    }

    // The line of a state.
    pub(crate) fn list_line(&self, frozen: Option<Tick>) -> Result<String, AllocError>
        requires { Known (reading_of (seen C.Chip self.now.store.now)) frozen }
        ensures { IfOk result (λ text. string_bytes text ≡ list_line (reading_of (seen C.Chip self.now.store.now)) frozen) }
    {
        let name = name_text(self.heap, frozen)?;
        let entries = or_none(self.heap, self.entries_text(frozen)?)?;
        format!(in self.heap; "{name}:{entries}\n")
    }

    // Appends the lines of the states of held numbers.
    pub(crate) fn push_state_lines(
        &self,
        text: &mut String,
        numbers: &[u32],
    ) -> Result<(), AllocError>
        requires { (k : ℕ) → k < length numbers.now → has (slice_index numbers.now k) (reading_of (seen C.Chip self.now.store.now)).held ≡ true }
        ensures { OnOk result (string_bytes text.new ≡ string_bytes text.old ++ state_lines (reading_of (seen C.Chip self.now.store.now)) numbers.now) }
    {
        for number in numbers {
            let line = self.list_line(Some(Tick(*number)))?;
            text.push_str(line.as_str())?;
        }
        Ok(())
    }
}
