// Held numbers: one more, one less, and whether a number is held.
ghost use Rattle.std.specs.Prelude.{◌≡◌, ℕ, ◌<◌, ◌≤◌, Bool, true, [], ◌∷◌, ◌++◌, nat_lt};
ghost use Rattle.std.specs.Option.{option_map};
ghost use Rattle.limits.specs.Numbers.{rising};
ghost use Rattle.limits.specs.Values.{held_of, up_to};
ghost use Rattle.readings.specs.Versions.{has, keep};
ghost use Rattle.noting.specs.Holding.{without};

use limits::Held;

// The held numbers and a number after them, unless there are eight already.
pub fn hold_number(held: &Held, number: u32) -> Option<Held>
    ensures held { option_map held_of result ≡ up_to 8 (held_of held.now ++ (number ∷ [])) }
    ensures rising { (top : ℕ) → rising 0 top (held_of held.now) ≡ true → top < number → rising 0 number (held_of held.now ++ (number ∷ [])) ≡ true }
{
    held.with(number)
}

// The held numbers that pass a test.
fn hold_those<F: Fn(u32) -> bool>(held: &Held, passes: F) -> Held
    ghost kept: { ℕ → Bool }
    requires can { F.IsAlwaysCallable passes }
    requires tests { (n : ℕ) (b : Bool) → F.post passes n b → b ≡ kept n }
    ensures { held_of result ≡ keep kept (held_of held.now) }
{
    let mut left = Held::empty();
    for n in held.as_slice() {
        if passes(*n) {
            left = left.with(*n).unwrap_or(left);
        }
    }
    left
}

// The held numbers without a number.
pub fn release_number(held: &Held, number: u32) -> Held
    ensures held { held_of result ≡ without number (held_of held.now) }
    ensures rising { (top later : ℕ) → rising 0 top (held_of held.now) ≡ true → top ≤ later → rising 0 later (without number (held_of held.now)) ≡ true }
{
    hold_those(held, |n| n != number)
}

// The held numbers below a bound. (A bound can be one more than any number.)
pub fn hold_below(held: &Held, bound: u64) -> Held
    ensures { held_of result ≡ keep (λ m. nat_lt m bound) (held_of held.now) }
{
    hold_those(held, |n| u64::from(n) < bound)
}

// Whether a number is held.
pub fn is_held(held: &Held, number: u32) -> bool
    ensures { result ≡ has number (held_of held.now) }
{
    held.as_slice().contains(&number)
}
