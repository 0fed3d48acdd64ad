//! The shapes of candidates.

ghost use Rattle.std.specs.Prelude.{◌≡◌};
ghost use Rattle.wd_candidates.specs.Candidates as spec;

/// How the columns of a candidate's tables are filled, but for those that a condition fixes.
#[derive(Clone, Copy)]
pub enum Style {
    /// Tied columns are NULL where they may be, else the first value of their type; the others differ from row to row.
    TiedNull,
    /// Tied columns hold the first value of their type; the others differ from row to row.
    TiedFirst,
    /// Columns in a key differ from row to row; the others hold the first value of their type.
    KeysApart,
}

/// How many rows each table of a candidate has, and how its columns are filled.
#[derive(Clone, Copy)]
pub struct Shape {
    pub rows: u32,
    pub style: Style,
}

impl Shape {
    fn of(rows: u32, style: Style) -> Shape
        ensures { result ≡ record { rows = rows; style = style } }
    {
        Shape { rows, style }
    }
}

/// The shapes in their order: 2, 3 and 4 rows, and for each number of rows every style.
pub fn shapes() -> [Shape; 9]
    ensures { result ≡ spec.shapes }
{
    [
        Shape::of(2, Style::TiedNull),
        Shape::of(2, Style::TiedFirst),
        Shape::of(2, Style::KeysApart),
        Shape::of(3, Style::TiedNull),
        Shape::of(3, Style::TiedFirst),
        Shape::of(3, Style::KeysApart),
        Shape::of(4, Style::TiedNull),
        Shape::of(4, Style::TiedFirst),
        Shape::of(4, Style::KeysApart),
    ]
}
