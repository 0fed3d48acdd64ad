//! What is asked of the program.

/// The program's usage, or a command over its inputs by name. An `I` stands for an input: its path, and once it is read its text.
#[derive(Drop)]
pub enum Task<'a, I> {
    Usage,
    Check {
        /// Whether one list of rows is asked for.
        listed: bool,
        schema: I,
        query: I,
    },
    Explain {
        schema: I,
        query: I,
    },
    Verify {
        listed: bool,
        schema: I,
        query: I,
        certificate: I,
    },
    Refute {
        schema: I,
        query: I,
        witness: I,
    },
    Run {
        schema: I,
        query: I,
        tables: Vec<Table<'a, I>>,
    },
}

/// The data that is given under a table's name.
#[derive(Drop)]
pub struct Table<'a, I> {
    pub name: &'a str,
    pub file: I,
}
