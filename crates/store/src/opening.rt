// A store's life: made on a chip, formatted or mounted, closed, and taken apart.
ghost use Rattle.std.specs.Prelude.{[], ◌∷◌, ◌≡◌};
ghost use Rattle.rules.specs.Told.{told, tick_value, no_value};
ghost use Rattle.store.specs.Views.{seen};
ghost use Rattle.store.specs.Deeds.{Formats, Mounts, Closes};

use crate::parts::Store;
use chip::Chip;
use refusals::Refusal;
use rules::Tick;

impl<C: Chip> Store<C> {
    // A closed store on a chip.
    pub fn new(chip: C) -> Store<C>
        ensures chip { result.chip ≡ chip }
        ensures closed { result.index ≡ None }
    {
        Store { chip, index: None }
    }

    // The chip again, as the calls left it.
    pub fn unmount(self) -> C
        ensures { result ≡ self.chip }
    {
        let Store { chip, index: _ } = self;
        chip
    }

    // Erases the chip, makes an empty store with this label on it, and opens it.
    pub fn format(&mut self, label: &[u8]) -> Result<Tick, Refusal>
        ensures kept { C.Chip.kept self.new.chip ≡ C.Chip.kept self.old.chip }
        ensures does { Formats label.now (seen C.Chip self.old) (told tick_value [] result) (seen C.Chip self.new) }
    {
        if self.index.is_some() {
            return Err(Refusal::StoreOpen);
        }
        let index = calls::format(&mut self.chip, label)?;
        let clock = Tick(index.clock);
        self.index = Some(index);
        Ok(clock)
    }

    // Opens the store that the chip's pages tell, and answers its clock.
    pub fn mount(&mut self) -> Result<Tick, Refusal>
        ensures kept { C.Chip.kept self.new.chip ≡ C.Chip.kept self.old.chip }
        ensures does { Mounts (seen C.Chip self.old) (told tick_value [] result) (seen C.Chip self.new) }
    {
        if self.index.is_some() {
            return Err(Refusal::StoreOpen);
        }
        let index = calls::mount(&self.chip)?;
        let clock = Tick(index.clock);
        self.index = Some(index);
        Ok(clock)
    }

    // Forgets all but the chip.
    pub fn close(&mut self) -> Result<(), Refusal>
        ensures kept { C.Chip.kept self.new.chip ≡ C.Chip.kept self.old.chip }
        ensures does { Closes (seen C.Chip self.old) (told no_value [] result) (seen C.Chip self.new) }
    {
        self.index.take().ok_or(Refusal::StoreClosed)?;
        Ok(())
    }
}
