//! The text of out of memory, and a list that clauses see as its items.

ghost use Rattle.std.specs.Prelude.{◌≡◌};
ghost use Rattle.farm_base.specs.Bytes.{is_all_digits};

use farm_base::{Items, NoMemory, is_all_digits};
use std::alloc::{AllocError, Global};
use std::test::Fail;
use test_checks::{Checks, shared};

#[test]
fn no_memory_has_a_text(rt: HostRuntime) -> Result<(), Fail> {
    let mut checks = Checks::new(&rt);
    let answer = shared(NoMemory::from(AllocError));
    let text = format!(in rt.alloc(); "{answer}")?;
    checks.same(text.as_str(), "no memory");
    drop(text);
    Ok(checks.end()?)
}

// A name, as its bytes.
type Name = Items<u8>;

// Whether a name is a text of digits.
fn is_number(name: &Name) -> bool
    ensures { result ≡ is_all_digits name.now }
{
    is_all_digits(name.get())
}

// The name of a text.
fn name_of(alloc: Global, text: &str) -> Result<Name, NoMemory> {
    Ok(shared(Name::new(text.as_bytes().to_vec(alloc)?)))
}

#[test]
fn a_name_is_seen_as_its_bytes(rt: HostRuntime) -> Result<(), Fail> {
    let mut checks = Checks::new(&rt);
    for (text, want) in [("", true), ("0459", true), ("4:5", false), ("4 5", false)] {
        let name = name_of(rt.alloc(), text)?;
        checks.same_at(text, name.get(), text.as_bytes());
        checks.same_at(text, is_number(&name), want);
    }
    Ok(checks.end()?)
}
