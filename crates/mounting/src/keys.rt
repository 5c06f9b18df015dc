// The order of a sector's versions, by sorted numbers.
ghost use Rattle.std.specs.Prelude.{◌≡◌};
ghost use Rattle.mounting.specs.Keys.{version_key, NextBirth};

use crate::sorted::Sorted;
use limits::Version;

// One more than the greatest birth.
const BIRTHS: u64 = 4294967296;

// Sector and birth in one number.
pub(crate) fn key_of(version: Version) -> u64
    ensures { result ≡ version_key version }
{
    u64::from(version.sector.number) * BIRTHS + u64::from(version.birth.number)
}

// The birth of the version that replaced this one, by the keys of all versions.
pub(crate) fn successor(keys: Sorted, version: Version) -> Option<u32>
    ensures { NextBirth keys.entry.numbers.now version.sector.number version.birth.number result }
{
    let next = *keys.numbers.get(keys.first_above(key_of(version)))?;
    (next / BIRTHS == u64::from(version.sector.number)).then_some((next % BIRTHS) as u32)
}
