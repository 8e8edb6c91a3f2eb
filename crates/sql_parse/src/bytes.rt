// How far kinds of bytes go in a text.
ghost use Rattle.std.specs.Prelude.{◌≡◌, ◌≤◌, length, option_map};
ghost use Rattle.std.specs.Char.{is_ascii_digit};
ghost use Rattle.std.specs.List.{prefix_len};
ghost use Rattle.std.specs.Str.{IsCharBoundary};
ghost use Rattle.qbs_base.specs.Bytes.{is_name_part as is_name_part_byte};
ghost use Rattle.sql_parse.specs.Seen.{ascii_front};

use qbs_base::is_name_part;

/// The first byte and the text behind it, where the text begins with an ASCII character.
pub fn split_ascii(text: &str) -> Option<(u8, &str)>
    ensures { option_map (λ x. (x.0, x.1.now)) result ≡ ascii_front text.now }
{
    match text.as_bytes() {
        [first, ..] if *first < 128 => {
            let (_, rest) = text.split_at(1);
            Some((*first, rest))
        }
        _ => None,
    }
}

fn name_run(bytes: &[u8]) -> usize
    ensures { result ≡ prefix_len is_name_part_byte bytes.now }
{
    bytes.iter().take_while(|b| is_name_part(**b)).count()
}

/// How many bytes at the front a name goes on with.
pub fn name_len(text: &str) -> usize
    ensures value { result ≡ prefix_len is_name_part_byte text.now }
    ensures boundary { IsCharBoundary text.now result }
{
    name_run(text.as_bytes())
}

fn digits_run(bytes: &[u8]) -> usize
    ensures { result ≡ prefix_len is_ascii_digit bytes.now }
{
    bytes.iter().take_while(|b| b.is_ascii_digit()).count()
}

/// How many digits stand at the front.
pub fn digits_len(text: &str) -> usize
    ensures value { result ≡ prefix_len is_ascii_digit text.now }
    ensures boundary { IsCharBoundary text.now result }
{
    digits_run(text.as_bytes())
}
