//! Window functions: their families, and what each takes and returns.

ghost use Rattle.std.specs.Prelude.{◌≡◌};
ghost use Rattle.wd_plan.specs.Functions as spec;

use wd_value::Value;

/// The window functions by their names (SQL, window function; PG, Window Functions).
#[derive(Clone, Copy, PartialEq, Eq)]
pub enum FunctionName {
    RowNumber,
    Rank,
    DenseRank,
    Ntile,
    Lag,
    Lead,
    FirstValue,
    LastValue,
    NthValue,
    Count,
    Sum,
    Min,
    Max,
}

/// What a row's place in its partition, or that of its peer group, decides.
#[derive(Clone, Copy, PartialEq, Eq, Debug)]
pub enum Ranking {
    RowNumber,
    Rank,
    DenseRank,
    /// The number of buckets, at least 1.
    Ntile(u64),
}

/// The direction of LAG and LEAD.
#[derive(Clone, Copy, PartialEq, Eq, Debug)]
pub enum Direction {
    /// To rows that come earlier.
    Lag,
    /// To rows that come later.
    Lead,
}

/// The value of a column the given number of rows away, and a default where there is no such row.
#[derive(Debug, Drop)]
pub struct Shift {
    pub direction: Direction,
    pub argument: u16,
    pub offset: u64,
    pub default: Value,
}

/// Which row of a frame FIRST_VALUE, LAST_VALUE and NTH_VALUE take.
#[derive(Clone, Copy, PartialEq, Eq, Debug)]
pub enum FrameRow {
    First,
    Last,
    /// Counted from 1.
    Nth(u64),
}

/// What depends on the rows alone, in whatever order; an argument is a column.
#[derive(Clone, Copy, PartialEq, Eq, Debug)]
pub enum Aggregate {
    /// COUNT(*).
    CountRows,
    Count(u16),
    Sum(u16),
    Min(u16),
    Max(u16),
}

/// What depends on the rows of a frame.
#[derive(Clone, Copy, PartialEq, Eq, Debug)]
pub enum FrameFunction {
    /// The value of a column at one row of the frame.
    ValueAt(FrameRow, u16),
    Aggregate(Aggregate),
}

/// A window function with its arguments; value arguments are columns of the Window's input.
#[derive(Debug, Drop)]
pub enum Function {
    Ranking(Ranking),
    Shift(Shift),
    OfFrame(FrameFunction),
}

/// What a value argument has to be.
#[derive(Clone, Copy)]
pub enum Argument {
    /// The function takes none.
    Nothing,
    Any,
    /// A whole number.
    Number,
    /// A whole number or a text.
    Ordered,
}

/// The kind of a function's values.
#[derive(Clone, Copy)]
pub enum ResultKind {
    Number,
    OfArgument,
}

/// Whether a function has one value for rows that are peers, whatever the order of these.
#[derive(Clone, Copy)]
pub enum ByPeers {
    Never,
    Always,
    /// Over frames that are stable.
    OverStableFrames,
}

/// What a function takes and returns.
#[derive(Clone, Copy)]
pub struct Signature {
    /// The least number of arguments.
    pub fewest: u8,
    /// The largest number of arguments.
    pub most: u8,
    /// Whether it takes a star instead of arguments.
    pub star: bool,
    /// What the value argument has to be, if there is one.
    pub argument: Argument,
    pub result: ResultKind,
    pub by_peers: ByPeers,
    /// Whether its values can be NULL.
    pub nullable: bool,
}

impl FunctionName {
    /// What the function takes and returns.
    pub fn signature(self) -> Signature
        ensures { result ≡ spec.signature self }
    {
        match self {
            FunctionName::RowNumber => place_signature(0, ByPeers::Never),
            FunctionName::Rank | FunctionName::DenseRank => place_signature(0, ByPeers::Always),
            FunctionName::Ntile => place_signature(1, ByPeers::Never),
            FunctionName::Lag | FunctionName::Lead => value_signature(1, 3),
            FunctionName::FirstValue | FunctionName::LastValue => value_signature(1, 1),
            FunctionName::NthValue => value_signature(2, 2),
            FunctionName::Count => rows_signature(true, Argument::Any, ResultKind::Number, false),
            FunctionName::Sum => rows_signature(false, Argument::Number, ResultKind::Number, true),
            FunctionName::Min | FunctionName::Max => {
                rows_signature(false, Argument::Ordered, ResultKind::OfArgument, true)
            }
        }
    }
}

/// A function of the row's place with the given number of arguments, all of them literals.
fn place_signature(arguments: u8, by_peers: ByPeers) -> Signature
    ensures { result ≡ spec.place_signature arguments by_peers }
{
    Signature {
        fewest: arguments,
        most: arguments,
        star: false,
        argument: Argument::Nothing,
        result: ResultKind::Number,
        by_peers,
        nullable: false,
    }
}

/// A function that shows the value of its argument at one row.
fn value_signature(fewest: u8, most: u8) -> Signature
    ensures { result ≡ spec.value_signature fewest most }
{
    Signature {
        fewest,
        most,
        star: false,
        argument: Argument::Any,
        result: ResultKind::OfArgument,
        by_peers: ByPeers::Never,
        nullable: true,
    }
}

/// A function of all rows of a frame.
fn rows_signature(star: bool, argument: Argument, kind: ResultKind, nullable: bool) -> Signature
    ensures { result ≡ spec.rows_signature star argument kind nullable }
{
    Signature {
        fewest: 1,
        most: 1,
        star,
        argument,
        result: kind,
        by_peers: ByPeers::OverStableFrames,
        nullable,
    }
}

impl Function {
    /// The function's name.
    pub fn name(&self) -> FunctionName
        ensures { result ≡ spec.name_of self.now }
    {
        match self {
            Function::Ranking(ranking) => ranking.name(),
            Function::Shift(shift) => shift.direction.name(),
            Function::OfFrame(function) => function.name(),
        }
    }

    /// The column of the value argument, if there is one.
    pub fn argument(&self) -> Option<u16>
        ensures { result ≡ spec.argument_of self.now }
    {
        match self {
            Function::Ranking(_) => None,
            Function::Shift(shift) => Some(shift.argument),
            Function::OfFrame(function) => function.argument(),
        }
    }
}

impl Ranking {
    fn name(self) -> FunctionName
        ensures { result ≡ spec.name_of_ranking self }
    {
        match self {
            Ranking::RowNumber => FunctionName::RowNumber,
            Ranking::Rank => FunctionName::Rank,
            Ranking::DenseRank => FunctionName::DenseRank,
            Ranking::Ntile(_) => FunctionName::Ntile,
        }
    }
}

impl Direction {
    fn name(self) -> FunctionName
        ensures { result ≡ spec.name_of_direction self }
    {
        match self {
            Direction::Lag => FunctionName::Lag,
            Direction::Lead => FunctionName::Lead,
        }
    }
}

impl FrameFunction {
    fn name(self) -> FunctionName
        ensures { result ≡ spec.name_of_frame_function self }
    {
        match self {
            FrameFunction::ValueAt(FrameRow::First, _) => FunctionName::FirstValue,
            FrameFunction::ValueAt(FrameRow::Last, _) => FunctionName::LastValue,
            FrameFunction::ValueAt(FrameRow::Nth(_), _) => FunctionName::NthValue,
            FrameFunction::Aggregate(aggregate) => aggregate.name(),
        }
    }

    fn argument(self) -> Option<u16>
        ensures { result ≡ spec.argument_of_frame_function self }
    {
        match self {
            FrameFunction::ValueAt(_, column) => Some(column),
            FrameFunction::Aggregate(aggregate) => aggregate.argument(),
        }
    }
}

impl Aggregate {
    /// The name of the function.
    pub fn name(self) -> FunctionName
        ensures { result ≡ spec.name_of_aggregate self }
    {
        match self {
            Aggregate::CountRows | Aggregate::Count(_) => FunctionName::Count,
            Aggregate::Sum(_) => FunctionName::Sum,
            Aggregate::Min(_) => FunctionName::Min,
            Aggregate::Max(_) => FunctionName::Max,
        }
    }

    fn argument(self) -> Option<u16>
        ensures { result ≡ spec.argument_of_aggregate self }
    {
        match self {
            Aggregate::CountRows => None,
            Aggregate::Count(column)
            | Aggregate::Sum(column)
            | Aggregate::Min(column)
            | Aggregate::Max(column) => Some(column),
        }
    }
}
