// Kinds of bytes of a Java file.
ghost use Rattle.std.specs.Prelude.{◌≡◌};
ghost use Rattle.view_items.specs.Bytes as kinds;

use qbs_base::{is_digit, is_name_part, is_name_start, is_white};

/// Space, tab, carriage return, line feed or form feed.
pub fn is_space(byte: u8) -> bool
    ensures { result ≡ kinds.is_space byte }
{
    is_white(byte) || byte == 12
}

pub fn ends_line(byte: u8) -> bool
    ensures { result ≡ kinds.ends_line byte }
{
    byte == b'\n' || byte == b'\r'
}

pub fn begins_name(byte: u8) -> bool
    ensures { result ≡ kinds.begins_name byte }
{
    is_name_start(byte) || byte == b'$' || byte >= 128
}

pub fn is_in_name(byte: u8) -> bool
    ensures { result ≡ kinds.is_in_name byte }
{
    begins_name(byte) || is_digit(byte)
}

/// A letter, a digit, `_` or a dot.
pub fn is_in_number(byte: u8) -> bool
    ensures { result ≡ kinds.is_in_number byte }
{
    is_name_part(byte) || byte == b'.'
}

pub fn is_plus_or_minus(byte: u8) -> bool
    ensures { result ≡ kinds.is_plus_or_minus byte }
{
    byte == b'+' || byte == b'-'
}

/// What the exponent of a number begins with.
pub fn begins_exponent(hexadecimal: bool, byte: u8) -> bool
    ensures { result ≡ kinds.begins_exponent hexadecimal byte }
{
    if hexadecimal {
        byte == b'p' || byte == b'P'
    } else {
        byte == b'e' || byte == b'E'
    }
}

/// What Java passes over in names, or is no character of a program.
pub fn is_control(byte: u8) -> bool
    ensures { result ≡ kinds.is_control byte }
{
    byte <= 8 || (14 <= byte && byte <= 27) || byte == 127
}
