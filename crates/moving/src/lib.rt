// Moving pages: what is to stay of a block goes to the spare block, and the block is erased.
// Chip and index are lent apart: a struct of both would be made anew at each call, and could not say what stays.
#![tactic(auto)]

ghost use Rattle.std.specs.Prelude.{◌≡◌, ℕ, ◌+◌, ◌<◌, ◌≤◌, slice_index_or};
ghost use Rattle.readings.specs.Links.{stays_by};
ghost use Rattle.tables.specs.Records.{unused};
ghost use Rattle.moving.specs.Sound.{page_stays, lasting};
ghost use Rattle.moving.specs.Moves.{redirected, Movable, Moved, Copies, Relocates, forgotten_at};

use chip::{BlockNumber, Chip, ChipFault, PAGE_BYTES, PageNumber};
use tables::{Index, Kind, Record, is_held_between, unused_record};

fn version_stays(record: Record, held: &[u32], limit: u32) -> bool
    ensures { result ≡ stays_by held.now limit record.birth record.link }
{
    record.birth <= limit
        && (record.link == 0
            || limit < record.link
            || is_held_between(held, record.birth, u64::from(record.link)))
}

// Whether what the page says is to stay: a version that the present or a held number up to the limit
// needs, or the youngest register.
pub fn page_stays(ix: &Index, page: usize, limit: u32) -> bool
    ensures { result ≡ page_stays ix.now limit page }
{
    let record = ix.at(page);
    match record.kind {
        Kind::Erased => false,
        Kind::Data | Kind::Deletion => version_stays(record, ix.held.as_slice(), limit),
        Kind::Register => record.birth == ix.newest,
    }
}

// Where the map has page `from` for the sector, it has page `to` from then on.
fn redirect(ix: &mut Index, sector: u16, from: usize, to: usize)
    requires { to < 2048 }
    ensures map { ix.new.map ≡ redirected ix.old.map sector from to }
    ensures records { ix.new.records ≡ ix.old.records }
    ensures spare { ix.new.spare ≡ ix.old.spare }
    ensures lasting { lasting ix.new ≡ lasting ix.old }
{
    let sector = usize::from(sector);
    if sector < ix.map.len() && usize::from(ix.map[sector]) == from {
        ix.map[sector] = to as u16;
    }
}

// Copies a page to an erased one.
fn move_page<C: Chip>(chip: &mut C, ix: &mut Index, from: usize, to: usize) -> Result<(), ChipFault>
    requires { (from < 2048) × (to < 2048) }
    ensures kept { C.Chip.kept chip.new ≡ C.Chip.kept chip.old }
    ensures same { C.Chip.blocks chip.new ≡ C.Chip.blocks chip.old }
    ensures lasting { lasting ix.new ≡ lasting ix.old }
    ensures spare { ix.new.spare ≡ ix.old.spare }
    ensures moved { Movable (C.Chip.pages chip.old) from to → Moved (C.Chip.pages chip.old) ix.old from to result (C.Chip.pages chip.new) ix.new }
{
    let mut buffer = [0u8; PAGE_BYTES];
    chip.read(PageNumber(from as u32), &mut buffer)?;
    chip.program(PageNumber(to as u32), &buffer)?;
    let record = ix.at(from);
    ix.put(to, record);
    redirect(ix, record.sector, from, to);
    Ok(())
}

// Copies the pages of a block that are to stay, `from` its first, to the same places of the erased
// block whose first page is `to`.
fn copy_staying<C: Chip>(
    chip: &mut C,
    ix: &mut Index,
    from: usize,
    to: usize,
    limit: u32,
) -> Result<(), ChipFault>
    requires { (from + C.Chip.per ≤ 2048) × (to + C.Chip.per ≤ 2048) }
    ensures kept { C.Chip.kept chip.new ≡ C.Chip.kept chip.old }
    ensures same { C.Chip.blocks chip.new ≡ C.Chip.blocks chip.old }
    ensures lasting { lasting ix.new ≡ lasting ix.old }
    ensures copied { Copies (C.Chip.blocks chip.old) C.Chip.per (C.Chip.pages chip.old) ix.old limit from to result (C.Chip.pages chip.new) ix.new }
{
    let per = C::block_pages();
    // Over places: a page keeps its place in the other block.
    for i in 0..per {
        if page_stays(ix, from + i, limit) {
            move_page(chip, ix, from + i, to + i)?;
        }
    }
    Ok(())
}

// Forgets what n pages say, `from` the first.
fn forget(ix: &mut Index, from: usize, n: usize)
    requires { from + n ≤ 2048 }
    ensures records { (k : ℕ) → slice_index_or ix.new.records k unused ≡ forgotten_at ix.old.records from n k }
    ensures map { ix.new.map ≡ ix.old.map }
    ensures lasting { lasting ix.new ≡ lasting ix.old }
{
    ix.records[from..from + n].fill(unused_record());
}

// Cleans a block: what is to stay of it goes to the spare block, and it is erased and the spare block
// from then on.
pub fn relocate<C: Chip>(
    chip: &mut C,
    ix: &mut Index,
    victim: BlockNumber,
    limit: u32,
) -> Result<(), ChipFault>
    ensures kept { C.Chip.kept chip.new ≡ C.Chip.kept chip.old }
    ensures same { C.Chip.blocks chip.new ≡ C.Chip.blocks chip.old }
    ensures lasting { lasting ix.new ≡ lasting ix.old }
    ensures done { Relocates (C.Chip.blocks chip.old) C.Chip.per (C.Chip.pages chip.old) ix.old limit victim.0 result (C.Chip.pages chip.new) ix.new }
{
    let per = C::block_pages();
    let from = victim.0 as usize * per;
    let to = ix.spare.0 as usize * per;
    if from + per > ix.pages || to + per > ix.pages {
        return Err(ChipFault::OutOfRange);
    }
    copy_staying(chip, ix, from, to, limit)?;
    chip.erase(victim)?;
    forget(ix, from, per);
    ix.spare = victim;
    Ok(())
}
