//! The places of keys.

ghost use Rattle.std.specs.Prelude.{◌≡◌, IfOk, Some};
ghost use Rattle.key_index.specs.Keys.{place_under};

use farm_base::NoMemory;
use key_index::KeyIndex;
use std::test::Fail;
use test_checks::{Checks, shared};

// The place of a key, which gets this one if it has none.
fn place_or(index: &mut KeyIndex, account: u32, key: u64, place: u32) -> Result<u32, NoMemory>
    ensures kept { IfOk result (λ found. place_under index.new account key ≡ Some found) }
{
    if let Some(found) = index.place_of(account, key) {
        return Ok(found);
    }
    index.reserve()?;
    index.enter(account, key, place);
    Ok(place)
}

// An account, a key, the place that it would get, and the place that it has.
const KEYS: [(u32, u64, u32, u32); 6] = [
    (1, 7, 1, 1),
    (2, 7, 2, 2),
    (1, 8, 3, 3),
    (1, 7, 4, 1),
    (4_294_967_295, 18_446_744_073_709_551_615, 5, 5),
    (2, 7, 6, 2),
];

// Each key has the first place that it was given.
fn check_places<R: Print>(checks: &mut Checks<'_, R>, index: &mut KeyIndex) {
    for (account, key, place, want) in KEYS {
        let found = place_or(index, account, key, place);
        checks.same_at(place, found, Ok(want));
    }
    checks.same_at("a key without a place", index.place_of(2, 8), None);
}

#[test]
fn a_key_keeps_its_first_place(rt: HostRuntime) -> Result<(), Fail> {
    let mut checks = Checks::new(&rt);
    let mut index = KeyIndex::new(rt.alloc());
    check_places(&mut checks, &mut index);
    drop(shared(index));
    Ok(checks.end()?)
}
