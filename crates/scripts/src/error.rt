ghost use Rattle.std.specs.Prelude.{◌≡◌, alloc_error};
ghost use Rattle.scripts.specs.declared.error.ParseError.TheVariants.{Expected, Memory};

use crate::expected::Expected;
use std::alloc::{AllocError, AllocFailed};

// Why a line gave no command: it reads otherwise than it should, or there was no memory for its list.
#[derive(Clone, Copy)]
pub enum ParseError {
    Expected(Expected),
    Memory(AllocError),
}

// Both by hand: a derived `From` has no contract, and clauses name the error that `?` makes.
impl From<Expected> for ParseError {
    ghost from_gives = { λ expected e. e ≡ Expected expected };

    fn from(expected: Expected) -> ParseError {
        ParseError::Expected(expected)
    }
}

impl<T: Drop> From<AllocFailed<T>> for ParseError {
    ghost from_gives = { λ _ e. e ≡ Memory alloc_error };

    fn from(_failed: AllocFailed<T>) -> ParseError {
        ParseError::Memory(AllocError)
    }
}
