// How far what has been opened goes.
ghost use Rattle.std.specs.Prelude.{◌≡◌, ◌+◌, ◌≤◌, length};
ghost use Rattle.dump_items.specs.Scan as specs;

/// What ends what has been opened.
#[derive(Clone, Copy)]
pub enum Until {
    /// This byte. Where `escapes`, a backslash takes the byte behind it with it.
    Quote { close: u8, escapes: bool },
    /// A star and a slash.
    Star,
    /// A line that begins with a backslash and a dot.
    Data,
}

/// What is known after a byte.
pub fn step(until: Until, state: u8, byte: u8) -> Option<u8>
    ensures { result ≡ specs.step until state byte }
{
    match until {
        Until::Quote { close, escapes } => quote_step(close, escapes, state, byte),
        Until::Star => star_step(state, byte),
        Until::Data => data_step(state, byte),
    }
}

fn quote_step(close: u8, escapes: bool, state: u8, byte: u8) -> Option<u8>
    ensures { result ≡ specs.quote_step close escapes state byte }
{
    if state == 1 {
        Some(0)
    } else if byte == close {
        None
    } else if escapes && byte == b'\\' {
        Some(1)
    } else {
        Some(0)
    }
}

fn star_step(state: u8, byte: u8) -> Option<u8>
    ensures { result ≡ specs.star_step state byte }
{
    if state == 1 && byte == b'/' {
        None
    } else if byte == b'*' {
        Some(1)
    } else {
        Some(0)
    }
}

fn data_step(state: u8, byte: u8) -> Option<u8>
    ensures { result ≡ specs.data_step state byte }
{
    if byte == b'\n' {
        Some(1)
    } else if state == 1 && byte == b'\\' {
        Some(2)
    } else if state == 2 && byte == b'.' {
        None
    } else {
        Some(0)
    }
}

/// How many bytes there are up to the last one and with it, or up to the end where there is none.
#[tactic(auto, unfolding(crate::specs::Scan::scan_len))]
pub fn scan_len(until: Until, bytes: &[u8]) -> usize
    ensures value { result ≡ specs.scan_len until 0 bytes.now }
    ensures within { result ≤ length bytes.now }
{
    let mut state = 0;
    let mut rest = bytes;
    let mut len = 0;
    while let [byte, after @ ..] = rest {
        len += 1;
        match step(until, state, *byte) {
            None => return len,
            Some(next) => state = next,
        }
        rest = after;
    }
    len
}

/// How many bytes there are up to the first place where the tag stands and with it, or up to the end where there is none. A tag has
/// dollars at its ends alone, so that no byte is compared more often than twice.
#[tactic(auto, unfolding(crate::specs::Scan::tag_end))]
pub fn tag_end(tag: &[u8], bytes: &[u8]) -> usize
    ensures value { result ≡ specs.tag_end tag.now bytes.now }
    ensures within { result ≤ length bytes.now }
{
    let mut rest = bytes;
    let mut len = 0;
    while let [_, after @ ..] = rest {
        if rest.starts_with(tag) {
            return len + tag.len();
        }
        len += 1;
        rest = after;
    }
    len
}
