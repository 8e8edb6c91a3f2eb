// ASCII texts and integers.
ghost use Rattle.std.specs.Prelude.{◌≡◌, ◌<◌, length, true};
ghost use Rattle.std.specs.Str.{IsAscii, all_ascii_digits};
ghost use Rattle.java_lex.specs.Pieces.{number_of, integer_at, digits_len as digits_len_of};
ghost use Rattle.java_lex.specs.Bytes.{long_mark};

use crate::kinds::{begins_with, digits_len};
use crate::piece::Piece;
use crate::token::{LexRule, TokenNode};

/// ASCII bytes as a text.
#[tactic(auto, using(crate::proofs::Ascii::ascii_text))]
pub fn ascii(bytes: &[u8]) -> &str
    requires { IsAscii bytes.now }
    ensures { result.now ≡ bytes.now }
{
    match str::from_utf8(bytes) {
        Ok(text) => text,
        Err(_) => unreachable!(),
    }
}

/// None where the number has more than 63 bits.
#[tactic(auto, using(crate::proofs::Numerals::parsed))]
fn number(digits: &str) -> Option<i64>
    requires digits { all_ascii_digits digits.now ≡ true }
    requires some { 0 < length digits.now }
    ensures { result ≡ number_of digits.now }
{
    digits.parse::<i64>().ok()
}

/// The integer that stands at the front.
pub fn integer(bytes: &[u8]) -> Piece
    requires { 0 < digits_len_of bytes.now }
    ensures { result ≡ integer_at bytes.now }
{
    let (digits, rest) = bytes.split_at(digits_len(bytes));
    let long = begins_with(b'L', rest);
    match number(ascii(digits)) {
        None => Piece::Fault(LexRule::LongTooLarge, 0),
        Some(value) => {
            let len = if long { digits.len() + 1 } else { digits.len() };
            Piece::Token(TokenNode::Integer { value, long }, len)
        }
    }
}
