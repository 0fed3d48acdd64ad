//! The findings, as a person, a program or a GitHub workflow reads them.

ghost use Rattle.std.specs.Prelude.{◌≡◌, IfErr};

use std::alloc::Global;
use wd_finding::RefusedText;
use wd_formats::{Level, annotation, json_line};
use wd_judged::{Block, Judged};
use wd_lex::Span;
use wd_lines::{Kind, add_excerpt, add_place, add_plain, add_remark};
use wd_source::{Position, position_at};
use wd_value::OutOfMemory;
use wd_words::Format;

/// A block of lines, and what it is about.
#[derive(Clone, Copy)]
struct Told<'p, 'b, 'm> {
    /// A program's word for it.
    word: &'static str,
    /// Its severity for a workflow.
    level: Level,
    path: &'p str,
    position: Position,
    block: &'b str,
    /// The text of the statement with added keys with which it has one answer, if one is known.
    mended: Option<&'m [u8]>,
}

/// What is reported of some files, in a format.
#[derive(Drop)]
pub struct Report {
    pub format: Format,
    /// The text so far.
    pub bytes: Vec<u8>,
}

impl Report {
    /// An empty report.
    pub fn new(alloc: Global, format: Format) -> Report {
        Report {
            format,
            bytes: Vec::new(alloc),
        }
    }

    /// Adds a block.
    fn add(&mut self, alloc: Global, told: Told<'_, '_, '_>) -> Result<(), OutOfMemory>
        ensures kept { IfErr result (λ _. self.new.bytes.items ≡ self.old.bytes.items) }
    {
        let more = block_in(alloc, self.format, told)?;
        Ok(self.bytes.extend_from_slice(&more)?)
    }

    /// Adds a block about a statement of a query's file, which was checked over the schema of another file.
    pub fn add_block(
        &mut self,
        alloc: Global,
        schema: &str,
        query: &str,
        judged: &Judged,
        block: &Block,
    ) -> Result<(), OutOfMemory>
        ensures kept { IfErr result (λ _. self.new.bytes.items ≡ self.old.bytes.items) }
    {
        let path = match block.about {
            RefusedText::Schema => schema,
            RefusedText::Query => query,
        };
        let mended = match &judged.help {
            Some(help) => Some(help.text.as_slice()),
            None => None,
        };
        self.add(
            alloc,
            Told {
                word: kind_word(judged.kind),
                level: kind_level(judged.kind),
                path,
                position: block.position,
                block: block.text.as_str(),
                mended,
            },
        )
    }

    /// Adds that a comment of a query's file begins as an excuse but is none.
    pub fn add_comment(
        &mut self,
        alloc: Global,
        path: &str,
        text: &[u8],
        comment: Span,
    ) -> Result<(), OutOfMemory>
        ensures kept { IfErr result (λ _. self.new.bytes.items ≡ self.old.bytes.items) }
    {
        let mut block = String::new(alloc);
        add_place(&mut block, path, text, comment)?;
        block.push_str("this comment excuses nothing\n")?;
        add_excerpt(&mut block, text, comment)?;
        block.push_str(
            "      help: -- wdreport: may depend, REASON      (on a line of its own above the query)\n\n",
        )?;
        self.add(
            alloc,
            Told {
                word: "comment",
                level: Level::Warning,
                path,
                position: position_at(text, (comment.start as usize).min(text.len())),
                block: block.as_str(),
                mended: None,
            },
        )
    }

    /// Adds that the text of a schema, as PostgreSQL's tools write it, is refused at these bytes.
    pub fn add_schema(
        &mut self,
        alloc: Global,
        path: &str,
        text: &[u8],
        span: Span,
    ) -> Result<(), OutOfMemory>
        ensures kept { IfErr result (λ _. self.new.bytes.items ≡ self.old.bytes.items) }
    {
        let mut block = String::new(alloc);
        add_place(&mut block, path, text, span)?;
        block.push_str(
            "not read: here stands nothing that is read of a schema, or something that changes what it declares\n",
        )?;
        add_excerpt(&mut block, text, span)?;
        block.push_str(
            "      help: write the tables as they are in the end, as pg_dump -s does\n\n",
        )?;
        self.add(
            alloc,
            Told {
                word: kind_word(Kind::NotRead),
                level: Level::Error,
                path,
                position: position_at(text, (span.start as usize).min(text.len())),
                block: block.as_str(),
                mended: None,
            },
        )
    }

    /// Adds that a statement of a query's file lost the certificate that a lock has for it.
    pub fn add_lost(
        &mut self,
        alloc: Global,
        path: &str,
        text: &[u8],
        statement: Span,
        lock: &str,
    ) -> Result<(), OutOfMemory>
        ensures kept { IfErr result (λ _. self.new.bytes.items ≡ self.old.bytes.items) }
    {
        let mut block = String::new(alloc);
        add_place(&mut block, path, text, statement)?;
        block.push_str("lost its certificate: the one in ")?;
        add_plain(&mut block, lock)?;
        block.push_str(" no longer holds, and none is found anew\n")?;
        add_excerpt(&mut block, text, statement)?;
        block.push('\n')?;
        self.add(
            alloc,
            Told {
                word: "lost",
                level: Level::Error,
                path,
                position: position_at(text, (statement.start as usize).min(text.len())),
                block: block.as_str(),
                mended: None,
            },
        )
    }

    /// Adds a remark on a path that is not read.
    pub fn add_remark(&mut self, alloc: Global, path: &str, remark: &str) -> Result<(), OutOfMemory>
        ensures kept { IfErr result (λ _. self.new.bytes.items ≡ self.old.bytes.items) }
    {
        self.add_line(alloc, kind_word(Kind::NotRead), Level::Error, path, remark)
    }

    /// Adds a line about a path, with a program's word for it.
    pub fn add_line(
        &mut self,
        alloc: Global,
        word: &'static str,
        level: Level,
        path: &str,
        line: &str,
    ) -> Result<(), OutOfMemory>
        ensures kept { IfErr result (λ _. self.new.bytes.items ≡ self.old.bytes.items) }
    {
        let mut block = String::new(alloc);
        add_remark(&mut block, path, line)?;
        self.add(
            alloc,
            Told {
                word,
                level,
                path,
                position: Position { line: 1, column: 1 },
                block: block.as_str(),
                mended: None,
            },
        )
    }
}

/// A block in a format.
fn block_in(alloc: Global, format: Format, told: Told<'_, '_, '_>) -> Result<Vec<u8>, OutOfMemory> {
    match format {
        Format::Text => Ok(Vec::from_slice(alloc, told.block.as_bytes())?),
        Format::Json => {
            let line = json_line(
                alloc,
                told.word,
                told.path,
                told.position,
                told.block.trim_end(),
                text_of(told.mended),
            )?;
            Ok(Vec::from_slice(alloc, line.as_bytes())?)
        }
        Format::Github => annotation(
            alloc,
            told.level,
            told.path.as_bytes(),
            told.position,
            told.block.trim_end().as_bytes(),
        ),
    }
}

/// Bytes as a text, if they are one.
fn text_of(bytes: Option<&[u8]>) -> Option<&str> {
    match bytes {
        Some(bytes) => str::from_utf8(bytes).ok(),
        None => None,
    }
}

/// A program's word for a finding.
fn kind_word(kind: Kind) -> &'static str {
    match kind {
        Kind::Deterministic => "deterministic",
        Kind::Depends => "depends",
        Kind::MayTie => "may tie",
        Kind::NotRead => "not read",
    }
}

/// The severity of a finding for a workflow.
fn kind_level(kind: Kind) -> Level {
    match kind {
        Kind::Depends | Kind::NotRead => Level::Error,
        Kind::MayTie | Kind::Deterministic => Level::Warning,
    }
}
