// Where the bytes of a text stand.
ghost use Rattle.std.specs.Prelude.{◌≡◌, length};
ghost use Rattle.qbs_base.specs.Places.{HasRoom, between, byte_at, next_place, place_after};

use crate::Span;

/// A place in a text. `line` and `column` count from 1, the column in bytes, and `index` is the
/// number of bytes before it.
#[derive(Clone, Copy, PartialEq, Eq)]
pub struct Place {
    pub line: u64,
    pub column: u64,
    pub index: u64,
}

impl Place {
    /// The place of the first byte.
    pub const FIRST: Place = Place {
        line: 1,
        column: 1,
        index: 0,
    };

    // The place of the next byte.
    fn next(self, byte: u8) -> Place
        requires { HasRoom self 1 }
        ensures { result ≡ next_place self byte }
    {
        if byte == b'\n' {
            Place {
                line: self.line + 1,
                column: 1,
                index: self.index + 1,
            }
        } else {
            Place {
                line: self.line,
                column: self.column + 1,
                index: self.index + 1,
            }
        }
    }

    /// The place behind these bytes.
    pub fn after(self, bytes: &[u8]) -> Place
        requires { HasRoom self (length bytes.now) }
        ensures { result ≡ place_after self bytes.now }
    {
        let mut place = self;
        for byte in bytes {
            place = place.next(*byte);
        }
        place
    }

    /// The stretch from here up to another place.
    pub fn span_to(self, end: Place) -> Span
        ensures { result ≡ between self end }
    {
        Span {
            line: self.line,
            column: self.column,
            start: self.index,
            end: end.index,
        }
    }

    /// The stretch of one byte.
    pub fn span_of_byte(self) -> Span
        requires { HasRoom self 0 }
        ensures { result ≡ byte_at self }
    {
        Span {
            line: self.line,
            column: self.column,
            start: self.index,
            end: self.index + 1,
        }
    }
}
