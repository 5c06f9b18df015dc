// A store that mount has opened, and where the text on it is made.
ghost use Rattle.store.specs.Views.{seen};
ghost use Rattle.mount_report.specs.Lines.{Ready};

use chip::Chip;
use std::alloc::Global;
use store::Store;

#[derive(Drop)]
pub(crate) struct Mounted<'a, C: Chip> {
    pub(crate) heap: Global,
    pub(crate) store: &'a Store<C>,
    ghost ready: { ∥ Ready (seen C.Chip store.now) ∥₁ },
}
