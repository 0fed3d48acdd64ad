use std::alloc::{AllocError, AllocFailed, Global};
use std::fmt::Display;
use std::num::ParseIntError;
use wd_value::OutOfMemory;

/// Why a case has nothing to show.
#[derive(Clone, Copy)]
pub enum Failure {
    /// The line is no case.
    NoCase,
    /// A call refuses, by this number and at this place; out of memory has no number.
    Refused {
        number: Option<u32>,
        place: Option<u64>,
    },
}

impl Failure {
    pub const OUT_OF_MEMORY: Failure = Failure::Refused {
        number: None,
        place: None,
    };

    /// The refusal of a call with its number and its place, if it has them.
    pub fn refused(number: Option<u32>, place: Option<u64>) -> Failure {
        Failure::Refused { number, place }
    }

    /// The failure as it is printed.
    pub fn shown(self, alloc: Global) -> Result<String, AllocError> {
        match self {
            Failure::NoCase => String::from_str(alloc, "no such case"),
            Failure::Refused { number, place } => refusal_shown(alloc, number, place),
        }
    }

    /// The failure, and a message after it.
    pub fn explained<E: Display>(self, alloc: Global, message: &E) -> Result<String, Failure> {
        let shown = self.shown(alloc)?;
        Ok(format!(in alloc; "{shown}: {message}")?)
    }
}

fn refusal_shown(
    alloc: Global,
    number: Option<u32>,
    place: Option<u64>,
) -> Result<String, AllocError> {
    match (number, place) {
        (Some(number), Some(place)) => format!(in alloc; "refused {number} at {place}"),
        (Some(number), None) => format!(in alloc; "refused {number}"),
        (None, Some(place)) => format!(in alloc; "out of memory at {place}"),
        (None, None) => String::from_str(alloc, "out of memory"),
    }
}

impl From<AllocError> for Failure {
    fn from(_error: AllocError) -> Failure {
        Failure::OUT_OF_MEMORY
    }
}

impl<T: Drop> From<AllocFailed<T>> for Failure {
    fn from(_error: AllocFailed<T>) -> Failure {
        Failure::OUT_OF_MEMORY
    }
}

impl From<OutOfMemory> for Failure {
    fn from(_error: OutOfMemory) -> Failure {
        Failure::OUT_OF_MEMORY
    }
}

impl From<ParseIntError> for Failure {
    fn from(_error: ParseIntError) -> Failure {
        Failure::NoCase
    }
}
