// What the tests of this crate share.
use chip::Chip;
use std::test::Fail;
use store::{Slip, Store};

// Makes calls on a closed store over the chip, which is let go afterwards.
pub(crate) fn on_store<C: Chip + Drop, F: FnOnce(&mut Store<C>) -> Result<(), Fail>>(
    chip: C,
    calls: F,
) -> Result<(), Fail>
    requires { F.IsAlwaysCallable calls }
{
    let mut store = Store::new(chip);
    let end = calls(&mut store);
    let _ = store.unmount();
    end
}

// Takes a slip, makes a call and spends the slip: its number, and what the two answer.
pub(crate) fn slip_around<
    C: Chip,
    T,
    U,
    F: FnOnce(&mut Store<C>) -> T,
    G: FnOnce(&mut Store<C>, Slip) -> U,
>(store: &mut Store<C>, call: F, spend: G) -> Result<(u32, T, U), Fail>
    requires call { F.IsAlwaysCallable call }
    requires spend { G.IsAlwaysCallable spend }
{
    let slip = store.open()?;
    let number = slip.number().0;
    let called = call(store);
    Ok((number, called, spend(store, slip)))
}
