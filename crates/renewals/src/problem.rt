ghost use Rattle.std.specs.Prelude.{◌≡◌};
ghost use Rattle.renewals.specs.Texts.{problem_text};
ghost use Rattle.renewals.specs.declared.problem.Problem.TheVariants.{Unreadable, Refused};

use crate::line;
use sources::fault::SourceFault;
use std::fmt;

// Why a line was not entered.
#[derive(Clone, Copy)]
pub enum Problem {
    Unreadable,
    Refused(SourceFault),
}

// Both by hand: a derived `From` has no contract, and clauses name the error that `?` makes.
impl From<line::Unreadable> for Problem {
    ghost from_gives = { λ e r. r ≡ Unreadable };

    fn from(_: line::Unreadable) -> Problem
        ensures { result ≡ Problem.Unreadable }
    {
        Self::Unreadable
    }
}

impl From<SourceFault> for Problem {
    ghost from_gives = { λ e r. r ≡ Refused e };

    fn from(fault: SourceFault) -> Problem
        ensures { result ≡ Problem.Refused fault }
    {
        Self::Refused(fault)
    }
}

impl fmt::Display for Problem {
    ghost output = { λ p. problem_text p };

    fn fmt<W: fmt::Write>(&self, f: &mut fmt::Formatter<W>) -> fmt::Result {
        match self {
            Problem::Unreadable => write!(f, "cannot be read"),
            Problem::Refused(fault) => {
                write!(f, "refused {} {}", fault.refusal().number, fault.name())
            }
        }
    }
}
