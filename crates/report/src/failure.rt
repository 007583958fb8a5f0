// Why there is no text: a refusal, or want of memory.
ghost use Rattle.std.specs.Prelude.{◌≡◌, Some};
ghost use Rattle.report.specs.Failures.{failure_words};
ghost use Rattle.report.specs.declared.failure.Failure.TheVariants.{Refused, OutOfMemory};

use ps2::refusal::Refusal;
use std::alloc::AllocError;
use std::error::Error;
use std::fmt;
use std::fmt::Display;

#[derive(Clone, Copy)]
pub enum Failure {
    Refused(Refusal),
    OutOfMemory,
}

impl fmt::Display for Failure {
    ghost output = { λ f. Some (failure_words f) };

    fn fmt<W: fmt::Write>(&self, f: &mut fmt::Formatter<W>) -> fmt::Result {
        match self {
            Failure::Refused(why) => {
                let number = why.number();
                write!(f, "refused with {number}: {why}")
            }
            Failure::OutOfMemory => write!(f, "out of memory"),
        }
    }
}

// The same words, so by hand: a program's report of an error prints this form.
impl fmt::Debug for Failure {
    fn fmt<W: fmt::Write>(&self, f: &mut fmt::Formatter<W>) -> fmt::Result {
        fmt::Display::fmt(self, f)
    }
}

impl Error for Failure {}

impl From<Refusal> for Failure {
    ghost from_gives = { λ x r. r ≡ Refused x };

    fn from(refusal: Refusal) -> Failure {
        Failure::Refused(refusal)
    }
}

impl From<AllocError> for Failure {
    ghost from_gives = { λ _ r. r ≡ OutOfMemory };

    fn from(_: AllocError) -> Failure {
        Self::OutOfMemory
    }
}

// Text that is made in a `String` fails for want of memory alone. These are by hand, since clauses name what they give.
impl From<fmt::Error> for Failure {
    ghost from_gives = { λ _ r. r ≡ OutOfMemory };

    fn from(_: fmt::Error) -> Failure {
        <Failure as From<AllocError>>::from(AllocError)
    }
}
