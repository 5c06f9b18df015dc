// What an open store remembers, once a page was programmed.
#![tactic(auto)]

pub mod counts;
pub mod format;
pub mod held;
pub mod lookups;

ghost use Rattle.std.specs.Prelude.{◌≡◌, ℕ, List};
ghost use Rattle.chip.specs.Pages.{Page};
ghost use Rattle.limits.specs.Values.{held_of};
ghost use Rattle.readings.specs.Versions.{Content};
ghost use Rattle.readings.specs.Sayings.{version, register, said};
ghost use Rattle.tables.specs.Records.{kind_of, version_kind};
ghost use Rattle.noting.specs.Consistent.{Consistent, Free, ConsistentAccepted};
ghost use Rattle.noting.specs.Noted.{memory_of, ticked, version_noted, next_version, VersionAdded, register_record, register_noted, next_register, Holdable, RegisterAdded};
ghost use Rattle.noting.specs.Written.{WrittenSays};

use chip::PageNumber;
pub use counts::{needed_after, needed_count};
pub use format::fresh_index;
pub use held::{hold_below, hold_number, is_held, release_number};
use limits::{Held, LAST_BIRTH, Sector};
pub use lookups::{page_in_state, present_page};
use tables::{Index, Kind, Record, VersionKind};

// The clock after one tick; its last value stays. (With `min` a greater one would not.)
fn tick(clock: u32) -> u32
    ensures { result ≡ ticked clock }
{
    if clock < LAST_BIRTH { clock + 1 } else { clock }
}

// Notes a version of a sector that was programmed, at the next tick, into an erased page.
pub fn note_version(ix: &mut Index, page: PageNumber, sector: Sector, kind: VersionKind)
    ensures memory { memory_of ix.new ≡ version_noted ix.old page.0 sector.number kind }
    ensures added { (blocks per : ℕ) (pages : List Page) (x : Page) (c : Content) → Consistent blocks per pages ix.old → Free per pages ix.old page.0 → said x ≡ version (next_version pages sector.number c) → kind_of c ≡ version_kind kind → VersionAdded blocks per pages page.0 x sector.number c ix.new }
{
    let at = page.0 as usize;
    if at >= ix.pages {
        return;
    }
    let birth = tick(ix.clock);
    let number = usize::from(sector.number);
    let former = usize::from(ix.map[number]);
    let mut replaced = ix.at(former);
    replaced.link = birth;
    ix.put(former, replaced);
    ix.put(
        at,
        Record {
            birth,
            link: 0,
            sector: sector.number,
            kind: kind.into(),
        },
    );
    ix.map[number] = at as u16;
    ix.clock = birth;
}

fn register_record(birth: u32) -> Record
    ensures { result ≡ register_record birth }
{
    Record {
        birth,
        link: 0,
        sector: 0,
        kind: Kind::Register,
    }
}

// Notes a register that was programmed, at the next tick, into an erased page: the label is the
// same, and each held number was held before or is the register's birth.
pub fn note_register(ix: &mut Index, page: PageNumber, held: Held)
    ensures memory { memory_of ix.new ≡ register_noted ix.old page.0 held }
    ensures added { (blocks per : ℕ) (pages : List Page) (x : Page) → Consistent blocks per pages ix.old → Free per pages ix.old page.0 → said x ≡ register (next_register pages (held_of held)) → Holdable pages (held_of held) → RegisterAdded blocks per pages page.0 x (held_of held) ix.new }
{
    let at = page.0 as usize;
    if at >= ix.pages {
        return;
    }
    let birth = tick(ix.clock);
    ix.put(at, register_record(birth));
    ix.clock = birth;
    ix.newest = birth;
    ix.held = held;
}

// What written pages say to a store.
pub fn written_pages_say()
    ensures { WrittenSays }
{}

// Mount accepts each chip whose pages and memory are consistent, where the sizes fit and there is
// room for what is needed.
pub fn consistent_is_accepted()
    ensures { ConsistentAccepted }
{}
