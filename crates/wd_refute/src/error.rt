//! Why a witness is refused.

ghost use Rattle.std.specs.Prelude.{◌≡◌};
ghost use Rattle.wd_refute.specs.Refutation.{number_of, origin_of, place_of, refusal_number};
ghost use Rattle.wd_refute.specs.declared.error.Refusal.TheVariants as refusal;

use thiserror::Error;
use wd_query::TextError;
use wd_value::OutOfMemory;
use wd_witness_text::WitnessTextError;

/// Why a witness's text is refused for a plan.
#[derive(Clone, Copy, Debug, Error)]
pub enum Refusal {
    /// 601: the text does not spell a witness over tables of the schema.
    #[error(transparent)]
    Text(WitnessTextError),
    /// 602: the tables do not meet the schema.
    #[error("the tables do not meet the schema")]
    NotMet,
    /// 603: an ordering is not lawful, is missing or is left over.
    #[error("a choice is not valid")]
    NotValid,
    /// 604: the plan has one answer under both choices.
    #[error("one answer under both choices")]
    OneAnswer,
    /// 802: a step of the plan has more than 10,000,000 rows.
    #[error("a step has more than 10,000,000 rows")]
    TooManyRows,
    /// The allocator refused to allocate.
    #[error("out of memory")]
    OutOfMemory,
}

/// Why a witness's text is refused for the texts of a schema and a query.
#[derive(Debug, Drop, Error)]
pub enum WitnessError {
    /// The schema's text or the query's is refused.
    #[error(transparent)]
    Texts(TextError),
    /// 601 to 604 and 802: the witness is refused for the plan.
    #[error(transparent)]
    Witness(Refusal),
}

/// Which of the inputs a refusal is about, or that it is about the evaluation.
#[derive(Clone, Copy)]
pub enum WitnessOrigin {
    Schema,
    Query,
    Witness,
    Run,
}

impl Refusal {
    /// The refusal's number, or `None` where memory ran out.
    pub fn number(&self) -> Option<u32>
        ensures { result ≡ refusal_number self.now }
    {
        match self {
            Refusal::Text(error) => error.number(),
            Refusal::NotMet => Some(602),
            Refusal::NotValid => Some(603),
            Refusal::OneAnswer => Some(604),
            Refusal::TooManyRows => Some(802),
            Refusal::OutOfMemory => None,
        }
    }
}

impl WitnessError {
    /// The refusal's number, or `None` where memory ran out.
    pub fn number(&self) -> Option<u32>
        ensures { result ≡ number_of self.now }
    {
        match self {
            WitnessError::Texts(error) => error.number(),
            WitnessError::Witness(refusal) => refusal.number(),
        }
    }

    /// The byte or the token that the refusal is about; a refusal of the witness has none.
    pub fn place(&self) -> Option<u64>
        ensures { result ≡ place_of self.now }
    {
        match self {
            WitnessError::Texts(error) => error.place(),
            WitnessError::Witness(_) => None,
        }
    }

    /// Which of the inputs the refusal is about; 802 is about the evaluation.
    pub fn origin(&self) -> WitnessOrigin
        ensures { result ≡ origin_of self.now }
    {
        match self {
            WitnessError::Texts(TextError::Schema(_)) => WitnessOrigin::Schema,
            WitnessError::Texts(TextError::Query(_)) => WitnessOrigin::Query,
            WitnessError::Witness(Refusal::TooManyRows) => WitnessOrigin::Run,
            WitnessError::Witness(_) => WitnessOrigin::Witness,
        }
    }
}

impl From<OutOfMemory> for Refusal {
    ghost from_gives = { λ _ r. r ≡ refusal.OutOfMemory };

    fn from(_error: OutOfMemory) -> Refusal {
        Refusal::OutOfMemory
    }
}

impl From<WitnessTextError> for Refusal {
    ghost from_gives = { λ e r. r ≡ refusal.Text e };

    fn from(error: WitnessTextError) -> Refusal {
        Refusal::Text(error)
    }
}
