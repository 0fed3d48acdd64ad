//! What is open in a query.

use wd_lex::Span;

/// A call or a limit that is open.
#[derive(Clone, Copy)]
pub struct Place {
    /// The bytes of the statement that it takes, if they are known.
    pub span: Option<Span>,
    /// The line on which it begins, in the file.
    pub line: u64,
    /// The node's number in postorder.
    pub node: u64,
    /// The call's number in its Window; `None` for a Limit.
    pub call: Option<u32>,
    /// The words for it.
    pub words: &'static str,
    /// What its sort keys lack.
    pub lack: &'static str,
}
