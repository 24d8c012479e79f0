ghost use Rattle.std.specs.Prelude.{◌≡◌, true, false, [], ◌∷◌};
ghost use Rattle.values.specs.Beyond.{NotBelowZero};
ghost use Rattle.values.specs.Filters.{width_of};
ghost use Rattle.values.specs.Change.{changed};
ghost use Rattle.values.specs.Laws.{NoChangeAgainstItself, OrderDoesNotMatter};
ghost use Rattle.values.specs.Edges.{EdgeFigures, with_absolute, good_sample};

use crate::checked::CheckedFilter;
use crate::filter::{Deadband, Filter, Trigger};
use crate::number::Number;
use crate::value::{Sample, Value};

// The two laws of changes, at hand after a call; nothing runs.
fn change_laws()
    ensures itself { NoChangeAgainstItself }
    ensures either { OrderDoesNotMatter }
{}

// No sample is a change against itself.
pub fn compare_with_itself(filter: &CheckedFilter, sample: &Sample) -> bool
    ensures value { result ≡ false }
    ensures law { NoChangeAgainstItself }
{
    change_laws();
    filter.is_change(sample, sample)
}

// The order of two samples does not matter.
pub fn compare_both_ways(filter: &CheckedFilter, first: &Sample, second: &Sample) -> (bool, bool)
    ensures value { result.0 ≡ result.1 }
    ensures law { OrderDoesNotMatter }
{
    change_laws();
    (
        filter.is_change(first, second),
        filter.is_change(second, first),
    )
}

// What a checked filter reads for d is not below 0; nothing runs.
fn width_law(filter: &CheckedFilter)
    ensures { NotBelowZero (width_of filter.now.filter) }
{}

// No number is a change against itself, whatever its kind.
pub fn compare_number_with_itself<N: Number>(filter: &CheckedFilter, number: N) -> bool
    ensures { result ≡ false }
{
    width_law(filter);
    filter.filter.is_number_change(number, number)
}

// Whether a good value is a change against the last one, where numbers may lie `d` apart.
fn differ(d: f64, last: Value, new: Value) -> bool
    ensures { result ≡ changed (with_absolute d) (good_sample last) (good_sample new) }
{
    let filter = Filter {
        trigger: Trigger::StatusValue,
        deadband: Deadband::Absolute,
        deadband_value: d,
    };
    filter.is_change(&Sample::good(last, 0), &Sample::good(new, 0))
}

fn int32_edges() -> [bool; 4]
    ensures { result ≡ false ∷ true ∷ true ∷ false ∷ [] }
{
    [
        differ(10.0, Value::Int32(100), Value::Int32(110)),
        differ(10.0, Value::Int32(100), Value::Int32(111)),
        differ(
            4_294_967_294.0,
            Value::Int32(-2_147_483_648),
            Value::Int32(2_147_483_647),
        ),
        differ(
            4_294_967_295.0,
            Value::Int32(-2_147_483_648),
            Value::Int32(2_147_483_647),
        ),
    ]
}

fn double_edges() -> [bool; 2]
    ensures { result ≡ false ∷ true ∷ [] }
{
    [
        differ(0.0, Value::Double(0.0), Value::Double(-0.0)),
        differ(1000.0, Value::Double(f64::NAN), Value::Double(1.0)),
    ]
}

fn figures()
    ensures { EdgeFigures }
{}

// The figures at the edges, shown of the definitions and answered by the code: whether the second value is a change.
pub fn edge_figures() -> [bool; 6]
    ensures figures { EdgeFigures }
    ensures value { result ≡ false ∷ true ∷ true ∷ false ∷ false ∷ true ∷ [] }
{
    figures();
    let int32 = int32_edges();
    let double = double_edges();
    [int32[0], int32[1], int32[2], int32[3], double[0], double[1]]
}
