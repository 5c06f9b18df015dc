// Why a store refuses a call.
#![tactic(auto)]

ghost use Rattle.std.specs.Prelude.{◌≡◌};
ghost use Rattle.refusals.specs.Numbers.{verdict_of};
ghost use Rattle.refusals.specs.declared.types.Refusal.TheVariants as refusal;

pub mod types;

use chip::ChipFault;
use scan::BadPage;
pub use types::Refusal;

impl Refusal {
    pub fn number(self) -> u8
        ensures { result ≡ (verdict_of self).number }
    {
        match self {
            Refusal::StoreOpen => 1,
            Refusal::StoreClosed => 2,
            Refusal::ChipSize => 3,
            Refusal::LabelLength => 4,
            Refusal::BadPage { .. } => 5,
            Refusal::NotAStore => 6,
            Refusal::NoSuchSector => 7,
            Refusal::BufferLength => 8,
            Refusal::NotHeld => 9,
            Refusal::TooManyHeld => 10,
            Refusal::OutOfTicks => 11,
            Refusal::Full => 12,
        }
    }
}

impl From<BadPage> for Refusal {
    ghost from_gives = { λ b r. r ≡ refusal.BadPage b.page b.cause };

    fn from(bad: BadPage) -> Refusal {
        Refusal::BadPage {
            page: bad.page,
            cause: bad.cause,
        }
    }
}

// A chip that refuses what a store asks of it holds no store. (That of an open store refuses nothing.)
impl From<ChipFault> for Refusal {
    ghost from_gives = { λ _ r. r ≡ refusal.NotAStore };

    fn from(_: ChipFault) -> Refusal {
        Self::NotAStore
    }
}
