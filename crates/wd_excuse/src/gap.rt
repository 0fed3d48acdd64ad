//! White space and comments at the front of a text.

ghost use Rattle.std.specs.Prelude.{◌≡◌, ◌<◌, ◌≤◌, ◌^◌, length, drop, IfSome, MatchOption};
ghost use Rattle.std.specs.List.{prefix_len};
ghost use Rattle.wd_lex.specs.Characters as characters;
ghost use Rattle.wd_lex.specs.Reading.{is_in};
ghost use Rattle.wd_lex.specs.Reading as reading;
ghost use Rattle.wd_lex.specs.declared.characters.Class.TheVariants as class;
ghost use Rattle.wd_excuse.specs.Gaps.{HasGap, HasNoGap};

/// Whether a byte is white space.
pub(crate) fn is_blank(b: u8) -> bool
    ensures { result ≡ characters.is_blank b }
{
    matches!(b, b'\t' | b'\n' | 0x0C | b'\r' | b' ')
}

/// Whether a line ends at a byte.
pub(crate) fn is_line_end(b: u8) -> bool
    ensures { result ≡ characters.is_line_end b }
{
    b == b'\n' || b == b'\r'
}

/// How many bytes of white space the text begins with.
pub(crate) fn blanks(bytes: &[u8]) -> usize
    ensures value { result ≡ prefix_len characters.is_blank bytes.now }
    ensures within { result ≤ length bytes.now }
{
    bytes.iter().take_while(|b| is_blank(**b)).count()
}

/// How many bytes come before the end of the first line.
fn line_len(bytes: &[u8]) -> usize
    ensures value { result ≡ prefix_len (is_in class.Line) bytes.now }
    ensures within { result ≤ length bytes.now }
{
    bytes.iter().take_while(|b| !is_line_end(**b)).count()
}

/// How many bytes the block comment at the front has, with those that it nests; `None` where nothing closes it.
fn comment_len(bytes: &[u8]) -> Option<usize>
    requires long { 2 ≤ length bytes.now }
    requires bounded { length bytes.now < 2 ^ 63 }
    ensures value { result ≡ reading.comment_end 0 2 (drop 2 bytes.now) }
    ensures within { IfSome result (λ len. len ≤ length bytes.now) }
{
    let mut depth: usize = 0;
    let mut at: usize = 2;
    while at < bytes.len() {
        let rest = &bytes[at..];
        if rest.starts_with(b"*/") {
            at += 2;
            if depth == 0 {
                return Some(at);
            }
            depth -= 1;
        } else if rest.starts_with(b"/*") {
            at += 2;
            depth += 1;
        } else {
            at += 1;
        }
    }
    None
}

/// How many bytes the white space or the comment at the front has, if there is one.
pub(crate) fn gap_len(bytes: &[u8]) -> Option<usize>
    ensures gap { MatchOption result (HasNoGap bytes.now) (HasGap bytes.now) }
    ensures within { IfSome result (λ len. (0 < len) × (len ≤ length bytes.now)) }
{
    if bytes.starts_with(b"--") {
        Some(line_len(bytes))
    } else if bytes.starts_with(b"/*") {
        comment_len(bytes)
    } else {
        match blanks(bytes) {
            0 => None,
            len => Some(len),
        }
    }
}
