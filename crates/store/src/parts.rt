// The store itself: its chip, and what it has in memory while it is open.
use chip::Chip;
use tables::Index;

// A store without memory is closed.
pub struct Store<C: Chip> {
    pub(crate) chip: C,
    pub(crate) index: Option<Index>,
}
