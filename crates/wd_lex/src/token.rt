use wd_value::Text;

/// Where a token is: the bytes of the text from `start` up to `end`.
#[derive(Clone, Copy, PartialEq, Eq)]
pub struct Span {
    pub start: u64,
    pub end: u64,
}

/// A reserved word or a symbol.
///
/// The reserved words are this project's own choice. All other key words of SQL may be names.
#[derive(Clone, Copy, Debug, PartialEq, Eq)]
pub enum Terminal {
    All,
    And,
    As,
    Asc,
    By,
    Case,
    Constraint,
    Create,
    Cross,
    Desc,
    Distinct,
    Else,
    End,
    False,
    Fetch,
    From,
    Full,
    Group,
    Groups,
    Having,
    Inner,
    Is,
    IsNull,
    Join,
    Left,
    Limit,
    Natural,
    Not,
    NotNull,
    Null,
    Offset,
    On,
    Or,
    Order,
    Outer,
    Over,
    Partition,
    Primary,
    Range,
    Right,
    Rows,
    Select,
    Table,
    Then,
    True,
    Union,
    Unique,
    Using,
    When,
    Where,
    Window,
    With,
    /// `(`
    LeftBracket,
    /// `)`
    RightBracket,
    /// `,`
    Comma,
    /// `.`
    Dot,
    /// `;`
    Semicolon,
    /// `*`
    Star,
    /// `+`
    Plus,
    /// `-`
    Minus,
    /// `/`
    Slash,
    /// `%`
    Percent,
    /// `=`
    Equals,
    /// `<>` or `!=`
    NotEquals,
    /// `<`
    Less,
    /// `<=`
    LessOrEqual,
    /// `>`
    Greater,
    /// `>=`
    GreaterOrEqual,
}

/// What a token says.
#[derive(Drop)]
pub enum TokenKind {
    /// A reserved word or a symbol.
    Terminal(Terminal),
    /// An unquoted word that is not reserved, folded to lower case.
    Word(Text),
    /// A quoted name as it is, its doubled quotes read as one. It is never a key word.
    Quoted(Text),
    /// A text in single quotes, its doubled quotes read as one.
    Literal(Text),
    /// At most 9223372036854775808.
    Number(u64),
}

/// A token, and where it is.
#[derive(Drop)]
pub struct Token {
    pub kind: TokenKind,
    pub span: Span,
}
