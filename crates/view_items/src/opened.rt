// What is opened and has to be closed.
ghost use Rattle.std.specs.Prelude.{◌≡◌, ◌≤◌, ◌<◌, false, length, IfSome, IsTrue};
ghost use Rattle.view_items.specs.Opened as specs;

use crate::bytes::ends_line;

/// What is opened and has to be closed.
#[derive(Clone, Copy)]
pub enum Opened {
    Comment,
    Block,
    Text,
    Char,
}

pub fn opening_mark(opened: Opened) -> &'static [u8]
    ensures { result.now ≡ specs.opening_mark opened }
{
    match opened {
        Opened::Comment => b"/*",
        Opened::Block => b"\"\"\"",
        Opened::Text => b"\"",
        Opened::Char => b"'",
    }
}

fn closing_mark(opened: Opened) -> &'static [u8]
    ensures { result.now ≡ specs.closing_mark opened }
{
    match opened {
        Opened::Comment => b"*/",
        Opened::Block => b"\"\"\"",
        Opened::Text => b"\"",
        Opened::Char => b"'",
    }
}

fn has_escapes(opened: Opened) -> bool
    ensures { result ≡ specs.has_escapes opened }
{
    !matches!(opened, Opened::Comment)
}

fn is_in_line(opened: Opened) -> bool
    ensures { result ≡ specs.is_in_line opened }
{
    matches!(opened, Opened::Text | Opened::Char)
}

/// Whether the line ends on which it has to be closed.
pub fn breaks(opened: Opened, byte: u8) -> bool
    ensures { result ≡ specs.breaks opened byte }
{
    is_in_line(opened) && ends_line(byte)
}

fn is_closed(opened: Opened, escaped: bool, bytes: &[u8]) -> bool
    ensures value { result ≡ specs.is_closed opened escaped bytes.now }
    ensures within { IsTrue result → length (specs.closing_mark opened) ≤ length bytes.now }
{
    !escaped && bytes.starts_with(closing_mark(opened))
}

/// Whether a byte escapes the one behind it.
fn escapes(opened: Opened, escaped: bool, byte: u8) -> bool
    ensures { result ≡ specs.escapes opened escaped byte }
{
    !escaped && has_escapes(opened) && byte == b'\\'
}

/// How many bytes there are up to the closing mark and with it, if there is one.
pub fn closing(opened: Opened, bytes: &[u8]) -> Option<usize>
    ensures value { result ≡ specs.closing opened false bytes.now }
    ensures within { IfSome result (λ n. n ≤ length bytes.now) }
{
    let mut escaped = false;
    let mut rest = bytes;
    let mut len = 0;
    while let [byte, after @ ..] = rest {
        if breaks(opened, *byte) {
            return None;
        }
        if is_closed(opened, escaped, rest) {
            return Some(len + closing_mark(opened).len());
        }
        escaped = escapes(opened, escaped, *byte);
        len += 1;
        rest = after;
    }
    None
}
