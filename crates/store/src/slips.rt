// A slip: the token that open gives, to be spent by keep or back, once.
ghost use Rattle.std.specs.Prelude.{◌≡◌};

use rules::Tick;

// It means its number and nothing else. It has no `Drop` and no `Clone`, so the compiler refuses code that
// lets it go or copies it, and only this crate can make one.
pub struct Slip {
    pub(crate) number: Tick,
}

impl Slip {
    // The number of the state that the slip stands for.
    pub fn number(&self) -> Tick
        ensures { result ≡ self.now.number }
    {
        self.number
    }

    pub(crate) fn spend(self) -> Tick
        ensures { result ≡ self.number }
    {
        let Slip { number } = self;
        number
    }
}
