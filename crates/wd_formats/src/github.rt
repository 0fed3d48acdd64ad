//! One annotation.

ghost use Rattle.std.specs.Prelude.{◌≡◌, ◌++◌, IfOk, OnOk, flat_map, string_bytes};
ghost use Rattle.wd_formats.specs.Annotations as spec;
ghost use Rattle.wd_formats.specs.Annotations.{part_byte};

use std::alloc::Global;
use std::fmt::Write;
use wd_source::Position;
use wd_value::OutOfMemory;

/// How serious a finding is for the workflow: an error fails a check, a warning does not.
#[derive(Clone, Copy, Debug, PartialEq, Eq)]
pub enum Level {
    Error,
    Warning,
}

/// A part of a command into which a text is put.
#[derive(Clone, Copy)]
enum Part {
    /// The value of a property, which a comma or a colon would end.
    Property,
    /// The message, which goes up to the end of the line.
    Message,
}

/// The line of an annotation: a command of a GitHub workflow (GitHub Docs, workflow commands) that shows the message next to the line
/// and the column of the file with this path.
pub fn annotation(
    alloc: Global,
    level: Level,
    path: &[u8],
    position: Position,
    message: &[u8],
) -> Result<Vec<u8>, OutOfMemory>
    ensures { IfOk result (λ v. v.items ≡ spec.annotation level path.now position message.now) }
{
    let mut line = Vec::new(alloc);
    line.extend_from_slice(b"::")?;
    line.extend_from_slice(level_word(level).as_bytes())?;
    line.extend_from_slice(b" file=")?;
    add_part(alloc, &mut line, Part::Property, path)?;
    line.extend_from_slice(place_text(alloc, position)?.as_bytes())?;
    add_part(alloc, &mut line, Part::Message, message)?;
    line.push(b'\n')?;
    Ok(line)
}

/// The word of a level.
fn level_word(level: Level) -> &'static str
    ensures { result.now ≡ spec.level_word level }
{
    match level {
        Level::Error => "error",
        Level::Warning => "warning",
    }
}

/// The properties of a position, and what begins the message.
fn place_text(alloc: Global, position: Position) -> Result<String, OutOfMemory>
    ensures { IfOk result (λ s. string_bytes s ≡ spec.place_text position) }
{
    let line = position.line;
    let column = position.column;
    let mut text = String::new(alloc);
    write!(text, ",line={line},col={column}::")?;
    Ok(text)
}

/// Adds a text as a part of a command.
fn add_part(alloc: Global, line: &mut Vec<u8>, part: Part, text: &[u8]) -> Result<(), OutOfMemory>
    ensures { OnOk result (line.new.items ≡ line.old.items ++ flat_map (part_byte part) text.now) }
{
    let more = escape(alloc, part, text)?;
    line.extend_from_slice(&more)?;
    Ok(())
}

/// A text as a part of a command.
fn escape(alloc: Global, part: Part, text: &[u8]) -> Result<Vec<u8>, OutOfMemory>
    ensures { IfOk result (λ v. v.items ≡ flat_map (part_byte part) text.now) }
{
    let mut more = Vec::new(alloc);
    for byte in text {
        add_byte(&mut more, part, *byte)?;
    }
    Ok(more)
}

/// Adds a byte of a text.
fn add_byte(bytes: &mut Vec<u8>, part: Part, byte: u8) -> Result<(), OutOfMemory>
    ensures { OnOk result (bytes.new.items ≡ bytes.old.items ++ part_byte part byte) }
{
    match (byte, part) {
        (b'%', _) => bytes.extend_from_slice(b"%25")?,
        (b'\r', _) => bytes.extend_from_slice(b"%0D")?,
        (b'\n', _) => bytes.extend_from_slice(b"%0A")?,
        (b':', Part::Property) => bytes.extend_from_slice(b"%3A")?,
        (b',', Part::Property) => bytes.extend_from_slice(b"%2C")?,
        _ => bytes.push(byte)?,
    }
    Ok(())
}
