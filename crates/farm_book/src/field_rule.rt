//! The rule on the numbered fields of a command, 5.

ghost use Rattle.std.specs.Prelude.{◌≡◌, ◌≤◌, length};
ghost use Rattle.farm_history.specs.Commands.{IsShortList, IsWellFormedCommand, numbers_of};
ghost use Rattle.farm_history.specs.Fields.{first_bad_field, is_out_of_range};
ghost use Rattle.farm_history.specs.Places.{first_place};

use farm_fixed::{
    HundredthDegree, Millimetre, TenthKilogramPerCubicMetre, ThousandthPercent, Unit,
};
use farm_history::{Command, Few};

// The numbers of a short list.
fn numbers(few: &Few) -> &[i64]
    requires { IsShortList few.now }
    ensures numbers { result.now ≡ numbers_of few.now }
{
    &few.values[..usize::from(few.count)]
}

/// The number of the first field of a command that is out of range. `None` exactly where none is.
#[tactic(auto, unfolding(farm_history::specs::Fields::first_bad_field))]
pub(crate) fn first_bad_field(command: &Command) -> Option<u8>
    requires well_formed { IsWellFormedCommand command.now }
    ensures first_bad_field { result ≡ first_bad_field command.now }
{
    match command {
        Command::Gauge {
            level,
            water,
            temperature,
            ambient,
            ..
        } => first_of(&[
            is_out_of_range::<Millimetre>(&[*level], true),
            is_out_of_range::<Millimetre>(&[*water], true),
            is_out_of_range::<HundredthDegree>(&[*temperature], true),
            is_out_of_range::<HundredthDegree>(&[*ambient], true),
        ]),
        Command::Dip {
            tapes,
            water,
            temperatures,
            ambient,
            ..
        } => first_of(&[
            is_out_of_range::<Millimetre>(numbers(tapes), false),
            is_out_of_range::<Millimetre>(numbers(water), false),
            is_out_of_range::<HundredthDegree>(numbers(temperatures), true),
            is_out_of_range::<HundredthDegree>(&[*ambient], true),
        ]),
        Command::Sample { density, sw, .. } => first_of(&[
            is_out_of_range::<TenthKilogramPerCubicMetre>(&[*density], true),
            is_out_of_range::<ThousandthPercent>(&[*sw], true),
        ]),
        _ => None,
    }
}

// The place, from 1, of the first test that holds.
fn first_of(tests: &[bool]) -> Option<u8>
    requires { length tests.now ≤ 4 }
    ensures first { result ≡ first_place (λ test. test) tests.now }
{
    for (index, test) in tests.iter().enumerate() {
        if *test {
            return Some(index as u8 + 1);
        }
    }
    None
}

// Whether a field of a quantity holds a number outside its range, or none where it has to hold one.
fn is_out_of_range<U: Unit>(numbers: &[i64], needed: bool) -> bool
    ensures out_of_range { result ≡ is_out_of_range (record { least = U.LEAST; most = U.MOST; holds = numbers.now; needed = needed }) }
{
    for number in numbers {
        if *number < U::LEAST || U::MOST < *number {
            return true;
        }
    }
    needed && numbers.is_empty()
}
