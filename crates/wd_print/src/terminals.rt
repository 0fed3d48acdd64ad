//! How terminals are spelled.

ghost use Rattle.std.specs.Prelude.{◌≡◌, ◌<◌};
ghost use Rattle.wd_lex.specs.Pieces.{spelling};
ghost use Rattle.wd_print.specs.Printed.{terminal_piece, gap_after};

use wd_lex::Terminal;

/// A reserved word in capitals, or a symbol.
#[tactic(auto, unfolding(crate::specs::Printed::terminal_piece))]
pub fn letters(terminal: Terminal) -> &'static str
    ensures { result.now ≡ spelling (terminal_piece terminal) }
{
    match terminal {
        Terminal::All => "ALL",
        Terminal::And => "AND",
        Terminal::As => "AS",
        Terminal::Asc => "ASC",
        Terminal::By => "BY",
        Terminal::Case => "CASE",
        Terminal::Constraint => "CONSTRAINT",
        Terminal::Create => "CREATE",
        Terminal::Cross => "CROSS",
        Terminal::Desc => "DESC",
        Terminal::Distinct => "DISTINCT",
        Terminal::Else => "ELSE",
        Terminal::End => "END",
        Terminal::False => "FALSE",
        Terminal::Fetch => "FETCH",
        Terminal::From => "FROM",
        Terminal::Full => "FULL",
        Terminal::Group => "GROUP",
        Terminal::Groups => "GROUPS",
        Terminal::Having => "HAVING",
        Terminal::Inner => "INNER",
        Terminal::Is => "IS",
        Terminal::IsNull => "ISNULL",
        Terminal::Join => "JOIN",
        Terminal::Left => "LEFT",
        Terminal::Limit => "LIMIT",
        Terminal::Natural => "NATURAL",
        Terminal::Not => "NOT",
        Terminal::NotNull => "NOTNULL",
        Terminal::Null => "NULL",
        Terminal::Offset => "OFFSET",
        Terminal::On => "ON",
        Terminal::Or => "OR",
        Terminal::Order => "ORDER",
        Terminal::Outer => "OUTER",
        Terminal::Over => "OVER",
        Terminal::Partition => "PARTITION",
        Terminal::Primary => "PRIMARY",
        Terminal::Range => "RANGE",
        Terminal::Right => "RIGHT",
        Terminal::Rows => "ROWS",
        Terminal::Select => "SELECT",
        Terminal::Table => "TABLE",
        Terminal::Then => "THEN",
        Terminal::True => "TRUE",
        Terminal::Union => "UNION",
        Terminal::Unique => "UNIQUE",
        Terminal::Using => "USING",
        Terminal::When => "WHEN",
        Terminal::Where => "WHERE",
        Terminal::Window => "WINDOW",
        Terminal::With => "WITH",
        Terminal::LeftBracket => "(",
        Terminal::RightBracket => ")",
        Terminal::Comma => ",",
        Terminal::Dot => ".",
        Terminal::Semicolon => ";",
        Terminal::Star => "*",
        Terminal::Plus => "+",
        Terminal::Minus => "-",
        Terminal::Slash => "/",
        Terminal::Percent => "%",
        Terminal::Equals => "=",
        Terminal::NotEquals => "<>",
        Terminal::Less => "<",
        Terminal::LessOrEqual => "<=",
        Terminal::Greater => ">",
        Terminal::GreaterOrEqual => ">=",
    }
}

/// The white space after a terminal.
#[tactic(auto, unfolding(crate::specs::Printed::gap_after))]
pub fn gap(terminal: Terminal) -> char
    ensures value { result ≡ gap_after terminal }
    ensures ascii { result < 128 }
{
    match terminal {
        Terminal::Comma | Terminal::Semicolon => '\n',
        _ => ' ',
    }
}
