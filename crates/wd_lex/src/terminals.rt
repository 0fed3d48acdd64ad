//! How terminals are spelled.

ghost use Rattle.std.specs.Prelude.{◌≡◌, map};
ghost use Rattle.wd_lex.specs.Terminals.{reserved_words, symbols, lookup};

use crate::token::Terminal;

// The reserved words, in lower case.
const RESERVED_WORDS: [(&[u8], Terminal); 52] = [
    (b"all", Terminal::All),
    (b"and", Terminal::And),
    (b"as", Terminal::As),
    (b"asc", Terminal::Asc),
    (b"by", Terminal::By),
    (b"case", Terminal::Case),
    (b"constraint", Terminal::Constraint),
    (b"create", Terminal::Create),
    (b"cross", Terminal::Cross),
    (b"desc", Terminal::Desc),
    (b"distinct", Terminal::Distinct),
    (b"else", Terminal::Else),
    (b"end", Terminal::End),
    (b"false", Terminal::False),
    (b"fetch", Terminal::Fetch),
    (b"from", Terminal::From),
    (b"full", Terminal::Full),
    (b"group", Terminal::Group),
    (b"groups", Terminal::Groups),
    (b"having", Terminal::Having),
    (b"inner", Terminal::Inner),
    (b"is", Terminal::Is),
    (b"isnull", Terminal::IsNull),
    (b"join", Terminal::Join),
    (b"left", Terminal::Left),
    (b"limit", Terminal::Limit),
    (b"natural", Terminal::Natural),
    (b"not", Terminal::Not),
    (b"notnull", Terminal::NotNull),
    (b"null", Terminal::Null),
    (b"offset", Terminal::Offset),
    (b"on", Terminal::On),
    (b"or", Terminal::Or),
    (b"order", Terminal::Order),
    (b"outer", Terminal::Outer),
    (b"over", Terminal::Over),
    (b"partition", Terminal::Partition),
    (b"primary", Terminal::Primary),
    (b"range", Terminal::Range),
    (b"right", Terminal::Right),
    (b"rows", Terminal::Rows),
    (b"select", Terminal::Select),
    (b"table", Terminal::Table),
    (b"then", Terminal::Then),
    (b"true", Terminal::True),
    (b"union", Terminal::Union),
    (b"unique", Terminal::Unique),
    (b"using", Terminal::Using),
    (b"when", Terminal::When),
    (b"where", Terminal::Where),
    (b"window", Terminal::Window),
    (b"with", Terminal::With),
];

// The symbols. `!=` is a second spelling of `<>`.
const SYMBOLS: [(&[u8], Terminal); 17] = [
    (b"(", Terminal::LeftBracket),
    (b")", Terminal::RightBracket),
    (b",", Terminal::Comma),
    (b".", Terminal::Dot),
    (b";", Terminal::Semicolon),
    (b"*", Terminal::Star),
    (b"+", Terminal::Plus),
    (b"-", Terminal::Minus),
    (b"/", Terminal::Slash),
    (b"%", Terminal::Percent),
    (b"=", Terminal::Equals),
    (b"<>", Terminal::NotEquals),
    (b"!=", Terminal::NotEquals),
    (b"<", Terminal::Less),
    (b"<=", Terminal::LessOrEqual),
    (b">", Terminal::Greater),
    (b">=", Terminal::GreaterOrEqual),
];

// The terminal that a table has for a spelling, if any.
fn lookup(mut table: &[(&[u8], Terminal)], bytes: &[u8]) -> Option<Terminal>
    ensures { result ≡ lookup (map (λ entry. (entry.0.now, entry.1)) table.entry.now) bytes.now }
{
    while let [entry, rest @ ..] = table {
        if entry.0 == bytes {
            return Some(entry.1);
        }
        table = rest;
    }
    None
}

/// The reserved word of that spelling, if any.
pub fn reserved_word(word: &[u8]) -> Option<Terminal>
    ensures { result ≡ lookup reserved_words word.now }
{
    lookup(&RESERVED_WORDS, word)
}

/// The symbol of that spelling, if any.
pub fn symbol(bytes: &[u8]) -> Option<Terminal>
    ensures { result ≡ lookup symbols bytes.now }
{
    lookup(&SYMBOLS, bytes)
}
