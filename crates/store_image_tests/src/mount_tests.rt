// Why mount refuses a chip.
// (Each check says of one chip, by its pages, what mount answers; what they have alike is `verdict`.)
use crate::verdicts::{Verdict, verdict};
use chip::PAGE_BYTES;
use std::test::Fail;
use test_hands::{changed, check_eq, data_page, deletion_page, register_page};

// A bad page on page 9, beside a good register.
fn check_cause(bad: [u8; PAGE_BYTES], cause: u8) -> Result<(), Fail> {
    let register = register_page(8, &[3])?;
    check_eq(
        verdict(4, &[(0, register), (9, bad)])?,
        Err((5, Some((9, cause)))),
    )
}

#[test]
fn a_bad_tag_is_cause_30() -> Result<(), Fail> {
    let good = data_page(5, 2, 65)?;
    let register = register_page(7, &[3])?;
    check_cause(changed(good, 512, 4), 30)?;
    check_cause(changed(good, 513, 1), 30)?;
    check_cause(changed(good, 515, 8), 30)?;
    check_cause(changed(good, 516, 0), 30)?;
    check_cause(changed(good, 527, 1), 30)?;
    check_cause(changed(register, 514, 0), 30)?;
    check_cause(changed([0xFF; PAGE_BYTES], 100, 0xFE), 30)?;
    check_cause([0; PAGE_BYTES], 30)
}

// The register has held number 3 in its bytes 8 to 11, and then the label.
#[test]
fn bad_data_are_causes_31_to_34() -> Result<(), Fail> {
    let deletion = deletion_page(5, 2)?;
    let register = register_page(7, &[3])?;
    check_cause(changed(deletion, 511, 1), 31)?;
    check_cause(changed(register, 1, 0xFF), 32)?;
    check_cause(changed(register, 2, 5), 32)?;
    check_cause(changed(register, 2, 36), 32)?;
    check_cause(changed(register, 4, 13), 32)?;
    check_cause(changed(register, 6, 33), 32)?;
    check_cause(changed(register, 8, 0), 33)?;
    check_cause(changed(register, 8, 8), 33)?;
    check_cause(changed(register_page(7, &[3, 5])?, 12, 3), 33)?;
    check_cause(changed(register, 14, 1), 34)?;
    check_cause(changed(register, 511, 1), 34)
}

#[test]
fn the_lowest_bad_page_is_told() -> Result<(), Fail> {
    let register = register_page(8, &[3])?;
    let high = changed(register, 511, 1);
    let low = changed(deletion_page(5, 2)?, 0, 1);
    let last = changed(data_page(5, 2, 65)?, 512, 0);
    check_eq(
        verdict(4, &[(0, register), (11, high), (10, low)])?,
        Err((5, Some((10, 31)))),
    )?;
    check_eq(
        verdict(4, &[(31, last), (0, register)])?,
        Err((5, Some((31, 30)))),
    )?;
    check_eq(verdict(3, &[(31, last), (0, register)])?, Ok(8))
}

#[test]
fn without_a_register_there_is_no_store() -> Result<(), Fail> {
    let data = data_page(5, 2, 65)?;
    check_eq(verdict(4, &[])?, Err((6, None)))?;
    check_eq(verdict(4, &[(0, data)])?, Err((6, None)))?;
    check_eq(
        verdict(4, &[(0, data), (1, register_page(1, &[])?)])?,
        Ok(2),
    )
}

// A register against a version, two stale versions, and two stale registers.
#[test]
fn no_birth_stands_twice() -> Result<(), Fail> {
    let register = register_page(8, &[])?;
    let one = data_page(5, 8, 65)?;
    check_eq(verdict(4, &[(0, register), (9, one)])?, Err((6, None)))?;
    let old = data_page(5, 2, 65)?;
    let new = data_page(5, 3, 66)?;
    let other = data_page(6, 2, 67)?;
    let newer = deletion_page(6, 4)?;
    let stale = [(0, register), (1, old), (2, new), (9, other), (10, newer)];
    check_eq(verdict(4, &stale)?, Err((6, None)))?;
    let fine = [
        (0, register),
        (1, old),
        (2, new),
        (9, data_page(6, 1, 67)?),
        (10, newer),
    ];
    check_eq(verdict(4, &fine)?, Ok(8))?;
    let former = register_page(7, &[])?;
    check_eq(
        verdict(4, &[(0, former), (1, former), (2, register)])?,
        Err((6, None)),
    )
}

#[test]
fn one_block_is_wholly_erased() -> Result<(), Fail> {
    let register = register_page(1, &[])?;
    let data = data_page(5, 2, 65)?;
    check_eq(verdict(2, &[(0, register), (15, data)])?, Err((6, None)))?;
    check_eq(verdict(2, &[(0, register), (7, data)])?, Ok(2))?;
    check_eq(verdict(3, &[(0, register), (15, data)])?, Ok(2))
}

// Sectors 1 to 6 and one more version on two blocks, whose capacity is 6.
fn seven_versions(last: [u8; PAGE_BYTES], held: &[u32]) -> Result<Verdict, Fail> {
    let pages = [
        (0, register_page(9, held)?),
        (1, data_page(1, 1, 65)?),
        (2, data_page(2, 2, 66)?),
        (3, data_page(3, 3, 67)?),
        (4, data_page(4, 4, 68)?),
        (5, data_page(5, 5, 69)?),
        (6, data_page(6, 6, 70)?),
        (7, last),
    ];
    verdict(2, &pages)
}

#[test]
fn more_versions_than_the_capacity_are_no_store() -> Result<(), Fail> {
    check_eq(seven_versions(data_page(7, 7, 71)?, &[])?, Err((6, None)))?;
    check_eq(seven_versions(data_page(6, 7, 71)?, &[])?, Ok(9))?;
    check_eq(seven_versions(data_page(6, 7, 71)?, &[6])?, Err((6, None)))?;
    check_eq(seven_versions(data_page(6, 7, 71)?, &[5])?, Ok(9))
}

// Size, then pages, then the rest.
#[test]
fn the_grounds_of_refusal_have_an_order() -> Result<(), Fail> {
    let bad = [0; PAGE_BYTES];
    check_eq(verdict(1, &[(3, bad)])?, Err((3, None)))?;
    check_eq(verdict(2, &[(3, bad)])?, Err((5, Some((3, 30)))))?;
    check_eq(verdict(1, &[(0, register_page(1, &[])?)])?, Err((3, None)))?;
    check_eq(verdict(2, &[])?, Err((6, None)))
}
