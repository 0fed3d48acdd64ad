//! Prints declarations, token by token.

ghost use Rattle.std.specs.Prelude.{◌≡◌, ◌∷◌, ◌++◌, OnOk, map, if◌then◌else◌};
ghost use Rattle.std.specs.String.{string_bytes};
ghost use Rattle.wd_lex.specs.declared.token.Terminal.TheVariants as m;
ghost use Rattle.wd_lex.specs.declared.token.TokenKind.{TokenKind};
ghost use Rattle.wd_read_cursor.specs.Tokens.{Kinds, ◌▸◌};
ghost use Rattle.wd_read_statements.specs.Grammar.{listed, spell_nulls, spell_rules, spell_words};
ghost use Rattle.wd_print.specs.Printed.{printed};
ghost use Rattle.wd_declaration.specs.Spelled.{rules_of, type_word};

use crate::declaration::{Declaration, DeclaredColumn, DeclaredElement, DeclaredKey};
use crate::identifier::Identifier;
use std::alloc::AllocError;
use wd_lex::Terminal;
use wd_print::{push_name, push_terminal, push_word};
use wd_read_statements::{KeyWords, Nulls};
use wd_value::ColumnType;

/// A value that has a spelling in tokens.
pub trait Written {
    /// The value as pure data, wherever it lies in memory.
    ghost Tree: { Type 0 };

    ghost tree: { Self → Tree };

    /// The value's tokens, before others.
    ghost spell: { Tree → Kinds → Kinds };

    /// Prints the value's tokens.
    fn write(&self, text: &mut String) -> Result<(), AllocError>
        ensures { OnOk result ((rest : Kinds) → string_bytes text.new ++ printed rest ≡ string_bytes text.old ++ printed (spell (tree self.now) rest)) };
}

/// Prints a terminal.
fn write_terminal(text: &mut String, terminal: Terminal) -> Result<(), AllocError>
    ensures { OnOk result ((rest : Kinds) → string_bytes text.new ++ printed rest ≡ string_bytes text.old ++ printed (terminal ▸ rest)) }
{
    push_terminal(text, terminal)
}

/// Prints a word.
fn write_word(text: &mut String, word: &str) -> Result<(), AllocError>
    ensures { OnOk result ((rest : Kinds) → string_bytes text.new ++ printed rest ≡ string_bytes text.old ++ printed (TokenKind.Word word.now ∷ rest)) }
{
    push_word(text, word)
}

/// Prints a terminal, if `more` says that something follows.
fn write_separator(text: &mut String, separator: Terminal, more: bool) -> Result<(), AllocError>
    ensures { OnOk result ((rest : Kinds) → string_bytes text.new ++ printed rest ≡ string_bytes text.old ++ printed (if more then separator ▸ rest else rest)) }
{
    if more {
        write_terminal(text, separator)?;
    }
    Ok(())
}

/// Prints a list with a terminal between its elements.
pub fn write_list<W: Written>(
    text: &mut String,
    items: &[W],
    separator: Terminal,
) -> Result<(), AllocError>
    ensures { OnOk result ((rest : Kinds) → string_bytes text.new ++ printed rest ≡ string_bytes text.old ++ printed (listed separator W.spell (map W.tree items.now) rest)) }
{
    let mut others = items;
    while let [first, after @ ..] = others {
        first.write(text)?;
        write_separator(text, separator, !after.is_empty())?;
        others = after;
    }
    Ok(())
}

/// Prints a list in brackets, with commas between its elements.
fn write_bracketed<W: Written>(text: &mut String, items: &[W]) -> Result<(), AllocError>
    ensures { OnOk result ((rest : Kinds) → string_bytes text.new ++ printed rest ≡ string_bytes text.old ++ printed (m.LeftBracket ▸ listed m.Comma W.spell (map W.tree items.now) (m.RightBracket ▸ rest))) }
{
    write_terminal(text, Terminal::LeftBracket)?;
    write_list(text, items, Terminal::Comma)?;
    write_terminal(text, Terminal::RightBracket)
}

impl Written for Identifier {
    ghost use Rattle.wd_read_cursor.specs.declared.name.Name.{Name as NameTree};
    ghost use Rattle.wd_read_statements.specs.Grammar.{spell_name};
    ghost use Rattle.wd_declaration.specs.Spelled.{name_of};

    ghost Tree = { NameTree };

    ghost tree = { name_of };

    ghost spell = { spell_name };

    fn write(&self, text: &mut String) -> Result<(), AllocError> {
        push_name(text, self.text.as_str())
    }
}

/// The name of a type.
fn type_word(kind: ColumnType) -> &'static str
    ensures { result.now ≡ type_word kind }
{
    match kind {
        ColumnType::SmallInt => "smallint",
        ColumnType::Integer => "integer",
        ColumnType::BigInt => "bigint",
        ColumnType::Text => "text",
        ColumnType::Boolean => "boolean",
    }
}

/// Prints NOT NULL, if the column is declared so.
fn write_rules(text: &mut String, not_null: bool) -> Result<(), AllocError>
    ensures { OnOk result ((rest : Kinds) → string_bytes text.new ++ printed rest ≡ string_bytes text.old ++ printed (spell_rules (rules_of not_null) rest)) }
{
    if not_null {
        write_terminal(text, Terminal::Not)?;
        write_terminal(text, Terminal::Null)
    } else {
        Ok(())
    }
}

impl Written for DeclaredColumn {
    ghost use Rattle.wd_read_statements.specs.Grammar.{spell_column};
    ghost use Rattle.wd_read_statements.specs.Written.{ColumnTree};
    ghost use Rattle.wd_declaration.specs.Spelled.{column_of};

    ghost Tree = { ColumnTree };

    ghost tree = { column_of };

    ghost spell = { spell_column };

    fn write(&self, text: &mut String) -> Result<(), AllocError> {
        self.name.write(text)?;
        write_word(text, type_word(self.kind))?;
        write_rules(text, self.not_null)
    }
}

/// Prints the words of a key.
fn write_words(text: &mut String, words: KeyWords) -> Result<(), AllocError>
    ensures { OnOk result ((rest : Kinds) → string_bytes text.new ++ printed rest ≡ string_bytes text.old ++ printed (spell_words words rest)) }
{
    match words {
        KeyWords::Primary => {
            write_terminal(text, Terminal::Primary)?;
            write_word(text, "key")
        }
        KeyWords::Unique(nulls) => {
            write_terminal(text, Terminal::Unique)?;
            write_nulls(text, nulls)
        }
    }
}

/// Prints what UNIQUE says of NULLs.
fn write_nulls(text: &mut String, nulls: Nulls) -> Result<(), AllocError>
    ensures { OnOk result ((rest : Kinds) → string_bytes text.new ++ printed rest ≡ string_bytes text.old ++ printed (spell_nulls nulls rest)) }
{
    match nulls {
        Nulls::Unsaid => Ok(()),
        Nulls::Distinct => {
            write_word(text, "nulls")?;
            write_terminal(text, Terminal::Distinct)
        }
        Nulls::NotDistinct => {
            write_word(text, "nulls")?;
            write_terminal(text, Terminal::Not)?;
            write_terminal(text, Terminal::Distinct)
        }
    }
}

impl Written for DeclaredKey {
    ghost use Rattle.wd_read_statements.specs.Grammar.{spell_key};
    ghost use Rattle.wd_read_statements.specs.Written.{KeyTree};
    ghost use Rattle.wd_declaration.specs.Spelled.{key_of};

    ghost Tree = { KeyTree };

    ghost tree = { key_of };

    ghost spell = { spell_key };

    fn write(&self, text: &mut String) -> Result<(), AllocError> {
        write_words(text, self.words)?;
        write_bracketed(text, &self.columns)
    }
}

impl Written for DeclaredElement {
    ghost use Rattle.wd_read_statements.specs.Grammar.{spell_element};
    ghost use Rattle.wd_read_statements.specs.Written.{ElementTree};
    ghost use Rattle.wd_declaration.specs.Spelled.{element_of};

    ghost Tree = { ElementTree };

    ghost tree = { element_of };

    ghost spell = { spell_element };

    fn write(&self, text: &mut String) -> Result<(), AllocError> {
        match self {
            DeclaredElement::Column(column) => column.write(text),
            DeclaredElement::Key(key) => key.write(text),
        }
    }
}

impl Written for Declaration {
    ghost use Rattle.wd_read_statements.specs.Grammar.{spell_table};
    ghost use Rattle.wd_read_statements.specs.Written.{TableTree};
    ghost use Rattle.wd_declaration.specs.Spelled.{table_of};

    ghost Tree = { TableTree };

    ghost tree = { table_of };

    ghost spell = { spell_table };

    fn write(&self, text: &mut String) -> Result<(), AllocError> {
        write_terminal(text, Terminal::Create)?;
        write_terminal(text, Terminal::Table)?;
        self.name.write(text)?;
        write_bracketed(text, &self.elements)
    }
}
