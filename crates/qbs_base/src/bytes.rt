// Kinds of bytes that several languages have in common.
ghost use Rattle.std.specs.Prelude.{◌≡◌};
ghost use Rattle.qbs_base.specs.Bytes as kinds;

/// Space, tab, carriage return or line feed.
pub fn is_white(byte: u8) -> bool
    ensures { result ≡ kinds.is_white byte }
{
    byte == b' ' || byte == b'\t' || byte == b'\r' || byte == b'\n'
}

/// `0` to `9`.
pub fn is_digit(byte: u8) -> bool
    ensures { result ≡ kinds.is_digit byte }
{
    b'0' <= byte && byte <= b'9'
}

/// `A` to `Z`, `a` to `z`, or `_`.
pub fn is_name_start(byte: u8) -> bool
    ensures { result ≡ kinds.is_name_start byte }
{
    (b'A' <= byte && byte <= b'Z') || (b'a' <= byte && byte <= b'z') || byte == b'_'
}

/// What may begin a name, or a digit.
pub fn is_name_part(byte: u8) -> bool
    ensures { result ≡ kinds.is_name_part byte }
{
    is_name_start(byte) || is_digit(byte)
}
