//! Laws of the data of a table, over the definitions alone.

ghost use Rattle.wd_tables.specs.Laws.{HasOneRefusal, HasRowsOrRefusal};

/// A text has at most one refusal, except that memory runs out.
pub fn one_refusal()
    ensures { HasOneRefusal }
{}

/// A text that holds rows which meet the table contains no cause of a refusal.
pub fn rows_or_refusal()
    ensures { HasRowsOrRefusal }
{}
