// What is known to stay open, so that nothing is looked for twice.
ghost use Rattle.std.specs.Prelude.{◌≡◌, ◌+◌, ◌≤◌, ◌<◌, ◌^◌, length, true, IfSome};
ghost use Rattle.view_items.specs.Opened as marks;
ghost use Rattle.view_items.specs.Pieces as pieces;
ghost use Rattle.view_items.specs.Known as specs;

use crate::bytes::ends_line;
use crate::opened::{Opened, breaks, closing, opening_mark};

/// For each of what may be opened the place of the file up to which it stays open, from where it was looked for.
#[derive(Clone, Copy)]
pub struct Known {
    pub comments: usize,
    pub blocks: usize,
    pub texts: usize,
    pub chars: usize,
}

/// How many bytes there are up to the end of the line.
pub fn line_len(bytes: &[u8]) -> usize
    ensures value { result ≡ pieces.line_len bytes.now }
    ensures within { result ≤ length bytes.now }
{
    bytes.iter().take_while(|b| !ends_line(**b)).count()
}

/// How many bytes are looked through for the closing mark.
fn reach(opened: Opened, bytes: &[u8]) -> usize
    ensures value { result ≡ specs.reach opened bytes.now }
    ensures within { result ≤ length bytes.now }
{
    bytes.iter().take_while(|b| !breaks(opened, **b)).count()
}

impl Known {
    /// Where nothing has been looked for.
    pub fn nothing() -> Known
        ensures { result ≡ specs.nothing }
    {
        Known {
            comments: 0,
            blocks: 0,
            texts: 0,
            chars: 0,
        }
    }

    fn until(self, opened: Opened) -> usize
        ensures { result ≡ specs.until self opened }
    {
        match opened {
            Opened::Comment => self.comments,
            Opened::Block => self.blocks,
            Opened::Text => self.texts,
            Opened::Char => self.chars,
        }
    }

    fn with(self, opened: Opened, until: usize) -> Known
        ensures { result ≡ specs.with_until self opened until }
    {
        match opened {
            Opened::Comment => Known {
                comments: until,
                ..self
            },
            Opened::Block => Known {
                blocks: until,
                ..self
            },
            Opened::Text => Known {
                texts: until,
                ..self
            },
            Opened::Char => Known {
                chars: until,
                ..self
            },
        }
    }
}

/// How many bytes there are with what is opened at the front, if it is closed. The bytes stand at a place of the file.
pub fn opened_len(known: &mut Known, opened: Opened, at: usize, bytes: &[u8]) -> Option<usize>
    requires mark { marks.begins_with bytes.now (marks.opening_mark opened) ≡ true }
    requires room { at + length bytes.now < 2 ^ 63 }
    requires known { specs.IsKnown known.old at bytes.now }
    ensures value { result ≡ marks.opened_len opened bytes.now }
    ensures within { IfSome result (λ n. (0 < n) × (n ≤ length bytes.now)) }
    ensures known { specs.IsKnown known.new at bytes.now }
{
    if at < known.until(opened) {
        return None;
    }
    let front = opening_mark(opened).len();
    let rest = &bytes[front..];
    match closing(opened, rest) {
        Some(len) => Some(front + len),
        None => {
            *known = known.with(opened, at + 1 + reach(opened, rest));
            None
        }
    }
}
