// Calls that change nothing.
#![tactic(auto, using(crate::proofs::Opened::calls_at))]

ghost use Rattle.std.specs.Prelude.{[], ◌∷◌, ◌≡◌};
ghost use Rattle.rules.specs.Calls.{read, look, since, since_in, count, ask_held, ask_label};
ghost use Rattle.rules.specs.Told.{told, holding_value, since_value, count_value, size_value};
ghost use Rattle.store.specs.Views.{seen};
ghost use Rattle.store.specs.Deeds.{Asks};

use crate::parts::Store;
use chip::{Chip, SectorNumber};
use refusals::Refusal;
use rules::{Count, Holding, Tick};

impl<C: Chip> Store<C> {
    // Fills 512 bytes with what a sector holds, or with 00 where it is empty.
    pub fn read(&self, sector: SectorNumber, buffer: &mut [u8]) -> Result<Holding, Refusal>
        ensures { Asks (read sector.0 buffer.old) (seen C.Chip self.now) (told holding_value buffer.new result) }
    {
        let index = self.index.as_ref().ok_or(Refusal::StoreClosed)?;
        calls::read(&self.chip, index, sector, buffer)
    }

    // Fills 512 bytes with what a sector held in a frozen state, or with 00 where it was empty.
    pub fn look(
        &self,
        state: Tick,
        sector: SectorNumber,
        buffer: &mut [u8],
    ) -> Result<Holding, Refusal>
        ensures { Asks (look state.0 sector.0 buffer.old) (seen C.Chip self.now) (told holding_value buffer.new result) }
    {
        let index = self.index.as_ref().ok_or(Refusal::StoreClosed)?;
        calls::look(&self.chip, index, state, sector, buffer)
    }

    // The birth of what a sector holds, or nothing where it is empty.
    pub fn since(&self, sector: SectorNumber) -> Result<Option<Tick>, Refusal>
        ensures { Asks (since sector.0) (seen C.Chip self.now) (told since_value [] result) }
    {
        let index = self.index.as_ref().ok_or(Refusal::StoreClosed)?;
        calls::since(&self.chip, index, sector)
    }

    // The birth of what a sector held in a frozen state, or nothing where it was empty.
    pub fn since_in(&self, state: Tick, sector: SectorNumber) -> Result<Option<Tick>, Refusal>
        ensures { Asks (since_in state.0 sector.0) (seen C.Chip self.now) (told since_value [] result) }
    {
        let index = self.index.as_ref().ok_or(Refusal::StoreClosed)?;
        calls::since_in(&self.chip, index, state, sector)
    }

    // How many versions are needed, and how many the chip can keep.
    pub fn count(&self) -> Result<Count, Refusal>
        ensures { Asks count (seen C.Chip self.now) (told count_value [] result) }
    {
        let index = self.index.as_ref().ok_or(Refusal::StoreClosed)?;
        Ok(calls::count(&self.chip, index))
    }

    // Fills 8 numbers with those of the held states, rising, and then 0, and answers how many there are.
    pub fn held(&self, buffer: &mut [u32]) -> Result<usize, Refusal>
        ensures { Asks (ask_held buffer.old) (seen C.Chip self.now) (told size_value buffer.new result) }
    {
        let index = self.index.as_ref().ok_or(Refusal::StoreClosed)?;
        calls::held(&self.chip, index, buffer)
    }

    // Fills 32 bytes with the label and then 00, and answers how long it is.
    pub fn label(&self, buffer: &mut [u8]) -> Result<usize, Refusal>
        ensures { Asks (ask_label buffer.old) (seen C.Chip self.now) (told size_value buffer.new result) }
    {
        let index = self.index.as_ref().ok_or(Refusal::StoreClosed)?;
        calls::label(&self.chip, index, buffer)
    }
}
