// Calls that change a sector, a state, or where pages stand.
#![tactic(auto, using(crate::proofs::Opened::calls_at))]

ghost use Rattle.std.specs.Prelude.{[], ◌∷◌, ◌≡◌};
ghost use Rattle.rules.specs.Calls.{write, delete, freeze, open_slip, release, keep_slip, revert, back_slip};
ghost use Rattle.rules.specs.Told.{told, tick_value, size_value};
ghost use Rattle.store.specs.Views.{seen};
ghost use Rattle.store.specs.Deeds.{Changes, Cleans, slip_value};

use crate::parts::Store;
use crate::slips::Slip;
use chip::{Chip, SectorNumber};
use refusals::Refusal;
use rules::Tick;

impl<C: Chip> Store<C> {
    // Adds a version of 512 bytes to a sector, and answers the clock.
    pub fn write(&mut self, sector: SectorNumber, given: &[u8]) -> Result<Tick, Refusal>
        ensures kept { C.Chip.kept self.new.chip ≡ C.Chip.kept self.old.chip }
        ensures does { Changes (write sector.0 given.now) (seen C.Chip self.old) (told tick_value [] result) (seen C.Chip self.new) }
    {
        let index = self.index.as_mut().ok_or(Refusal::StoreClosed)?;
        calls::write(&mut self.chip, index, sector, given)
    }

    // Adds a deletion to a sector with data, and answers the clock; an empty sector stays as it is.
    pub fn delete(&mut self, sector: SectorNumber) -> Result<Tick, Refusal>
        ensures kept { C.Chip.kept self.new.chip ≡ C.Chip.kept self.old.chip }
        ensures does { Changes (delete sector.0) (seen C.Chip self.old) (told tick_value [] result) (seen C.Chip self.new) }
    {
        let index = self.index.as_mut().ok_or(Refusal::StoreClosed)?;
        calls::delete(&mut self.chip, index, sector)
    }

    // Freezes the present state. The clock that it answers is the state's number.
    pub fn freeze(&mut self) -> Result<Tick, Refusal>
        ensures kept { C.Chip.kept self.new.chip ≡ C.Chip.kept self.old.chip }
        ensures does { Changes freeze (seen C.Chip self.old) (told tick_value [] result) (seen C.Chip self.new) }
    {
        let index = self.index.as_mut().ok_or(Refusal::StoreClosed)?;
        calls::freeze(&mut self.chip, index)
    }

    // Holds a state no more.
    pub fn release(&mut self, state: Tick) -> Result<Tick, Refusal>
        ensures kept { C.Chip.kept self.new.chip ≡ C.Chip.kept self.old.chip }
        ensures does { Changes (release state.0) (seen C.Chip self.old) (told tick_value [] result) (seen C.Chip self.new) }
    {
        let index = self.index.as_mut().ok_or(Refusal::StoreClosed)?;
        calls::release(&mut self.chip, index, state)
    }

    // Goes back to a state: what was written or frozen after it leaves.
    pub fn revert(&mut self, state: Tick) -> Result<Tick, Refusal>
        ensures kept { C.Chip.kept self.new.chip ≡ C.Chip.kept self.old.chip }
        ensures does { Changes (revert state.0) (seen C.Chip self.old) (told tick_value [] result) (seen C.Chip self.new) }
    {
        let index = self.index.as_mut().ok_or(Refusal::StoreClosed)?;
        calls::revert(&mut self.chip, index, state)
    }

    // Freezes the present state, and gives a slip for it.
    pub fn open(&mut self) -> Result<Slip, Refusal>
        ensures kept { C.Chip.kept self.new.chip ≡ C.Chip.kept self.old.chip }
        ensures does { Changes open_slip (seen C.Chip self.old) (told slip_value [] result) (seen C.Chip self.new) }
    {
        self.freeze().map(|number| Slip { number })
    }

    // Spends a slip: its state is held no more.
    pub fn keep(&mut self, slip: Slip) -> Result<Tick, Refusal>
        ensures kept { C.Chip.kept self.new.chip ≡ C.Chip.kept self.old.chip }
        ensures does { Changes (keep_slip slip.number.0) (seen C.Chip self.old) (told tick_value [] result) (seen C.Chip self.new) }
    {
        let number = slip.spend();
        let index = self.index.as_mut().ok_or(Refusal::StoreClosed)?;
        calls::release(&mut self.chip, index, number)
    }

    // Spends a slip: goes back to its state, which is held no more.
    pub fn back(&mut self, slip: Slip) -> Result<Tick, Refusal>
        ensures kept { C.Chip.kept self.new.chip ≡ C.Chip.kept self.old.chip }
        ensures does { Changes (back_slip slip.number.0) (seen C.Chip self.old) (told tick_value [] result) (seen C.Chip self.new) }
    {
        let state = slip.spend();
        let index = self.index.as_mut().ok_or(Refusal::StoreClosed)?;
        calls::back(&mut self.chip, index, state)
    }

    // Cleans one block, if the chip has a stale page, and answers how many stale pages it lost.
    pub fn clean(&mut self) -> Result<usize, Refusal>
        ensures kept { C.Chip.kept self.new.chip ≡ C.Chip.kept self.old.chip }
        ensures does { Cleans (seen C.Chip self.old) (told size_value [] result) (seen C.Chip self.new) }
    {
        let index = self.index.as_mut().ok_or(Refusal::StoreClosed)?;
        calls::clean(&mut self.chip, index)
    }
}
