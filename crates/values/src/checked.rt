// The struct alone: what its fact imports must not name it.
ghost use Rattle.std.specs.Prelude.{◌≡◌, true};
ghost use Rattle.values.specs.Filters.{allowed};

use crate::filter::Filter;

// A filter that passed its check: its deadband value may stand with its type.
#[derive(Clone, Copy)]
pub struct CheckedFilter {
    pub filter: Filter,
    ghost passed: { allowed filter.deadband filter.deadband_value ≡ true },
}
