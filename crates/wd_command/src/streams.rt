//! Writing texts to streams.

ghost use Rattle.std.specs.Prelude.{◌≡◌, ℕ, flat_map, OnOk};
ghost use Rattle.std.specs.Fmt.{decimal};
ghost use Rattle.std.specs.Io.KnownBytes.{Appends};
ghost use Rattle.wd_command.specs.Streams.{AppendsPart, piece_text};

use std::io;
use std::io::Write;

/// A piece of a line: a text as it is, or a number in decimal digits.
#[derive(Clone, Copy)]
pub enum Piece<'a> {
    Text(&'a str),
    Number(u64),
}

/// Writes the text and flushes. What an error leaves written is a beginning of the text.
pub fn write_and_flush<O: Write>(out: &mut O, text: &[u8]) -> io::Result<()>
    ensures whole { OnOk result (Appends (O.contents out.old) (O.contents out.new) text.now) }
    ensures part { AppendsPart (O.contents out.old) (O.contents out.new) text.now }
{
    write_text(out, text)?;
    out.flush()
}

/// Writes the pieces, one after the other. What an error leaves written is a beginning of them.
pub fn write_pieces<O: Write>(out: &mut O, pieces: &[Piece<'_>]) -> io::Result<()>
    ensures whole { OnOk result (Appends (O.contents out.old) (O.contents out.new) (flat_map piece_text pieces.now)) }
    ensures part { AppendsPart (O.contents out.old) (O.contents out.new) (flat_map piece_text pieces.now) }
{
    for piece in pieces {
        write_piece(out, *piece)?;
    }
    Ok(())
}

fn write_piece<O: Write>(out: &mut O, piece: Piece<'_>) -> io::Result<()>
    ensures whole { OnOk result (Appends (O.contents out.old) (O.contents out.new) (piece_text piece.entry)) }
    ensures part { AppendsPart (O.contents out.old) (O.contents out.new) (piece_text piece.entry) }
{
    match piece {
        Piece::Text(text) => write_text(out, text.as_bytes()),
        Piece::Number(number) => write_number(out, number),
    }
}

// Writes the decimal digits of the number.
fn write_number<O: Write>(out: &mut O, number: u64) -> io::Result<()>
    ensures whole { OnOk result (Appends (O.contents out.old) (O.contents out.new) (decimal number)) }
    ensures part { AppendsPart (O.contents out.old) (O.contents out.new) (decimal number) }
{
    if number >= 10 {
        write_number(out, number / 10)?;
    }
    write_text(out, &[b'0' + (number % 10) as u8])
}

// Writes the text.
fn write_text<O: Write>(out: &mut O, text: &[u8]) -> io::Result<()>
    ensures whole { OnOk result (Appends (O.contents out.old) (O.contents out.new) text.now) }
    ensures part { AppendsPart (O.contents out.old) (O.contents out.new) text.now }
{
    let mut at = 0;
    for _ in 0..u64::MAX {
        if at == text.len() {
            return Ok(());
        }
        match out.write(&text[at..]) {
            Ok(0) => return Err(io::Error::from(io::ErrorKind::WriteZero)),
            Ok(n) => at += n,
            Err(error) => {
                if error.kind() != io::ErrorKind::Interrupted {
                    return Err(error);
                }
            }
        }
    }
    Err(io::Error::from(io::ErrorKind::Interrupted))
}
