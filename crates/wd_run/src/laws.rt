//! Laws of data, over the definitions alone.

ghost use Rattle.wd_run.specs.Laws.{DataMeets};

/// The rows of the data meet the schema.
pub fn data_meets()
    ensures { DataMeets }
{}
