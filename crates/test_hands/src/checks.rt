// Checks for tests, whose failure says what does not hold.
use std::fmt::{Debug, Display};
use std::test::Fail;

pub fn check(holds: bool) -> Result<(), Fail> {
    if holds {
        Ok(())
    } else {
        Err(Fail::new("what was checked does not hold"))
    }
}

pub fn check_eq<T: PartialEq + Debug + Drop>(found: T, wanted: T) -> Result<(), Fail> {
    check_eq_at("", found, wanted)
}

// The failure begins with the place.
pub(crate) fn check_eq_at<P: Display + Drop, T: PartialEq + Debug + Drop>(
    place: P,
    found: T,
    wanted: T,
) -> Result<(), Fail> {
    if found == wanted {
        Ok(())
    } else {
        Err(Fail::new(format_args!("{place}found {found:?}, wanted {wanted:?}")))
    }
}

pub fn check_ne<T: PartialEq + Debug + Drop>(found: T, unwanted: T) -> Result<(), Fail> {
    if found == unwanted {
        Err(Fail::new(format_args!("found {found:?}, unwanted")))
    } else {
        Ok(())
    }
}
