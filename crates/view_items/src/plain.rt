// Files of which items say all that Java reads.
ghost use Rattle.std.specs.Prelude.{◌≡◌, false, not, nat_lt};
ghost use Rattle.std.specs.List.{list_all};
ghost use Rattle.std.specs.Str.{is_utf8};
ghost use Rattle.view_items.specs.Bytes as kinds;
ghost use Rattle.view_items.specs.Plain as specs;

use crate::bytes::is_control;
use crate::{Item, ItemKind};

/// Whether the bytes are UTF-8.
fn is_text(source: &[u8]) -> bool
    ensures { result ≡ is_utf8 source.now }
{
    std::str::from_utf8(source).is_ok()
}

/// Whether the byte is `u` or `{`, behind a backslash.
fn is_special(begun: bool, byte: u8) -> bool
    ensures { result ≡ specs.is_special begun byte }
{
    begun && (byte == b'u' || byte == b'{')
}

/// Whether the byte is a backslash that an even number of them stands directly before.
fn begins(begun: bool, byte: u8) -> bool
    ensures { result ≡ specs.begins begun byte }
{
    byte == b'\\' && !begun
}

/// Whether `u` or `{` stands behind a backslash that an even number of backslashes stands directly before.
fn has_escape(source: &[u8]) -> bool
    ensures { result ≡ specs.has_escape false source.now }
{
    let mut begun = false;
    for byte in source {
        if is_special(begun, *byte) {
            return true;
        }
        begun = begins(begun, *byte);
    }
    false
}

fn has_no_control(bytes: &[u8]) -> bool
    ensures { result ≡ list_all (λ b. not (kinds.is_control b)) bytes.now }
{
    for byte in bytes {
        if is_control(*byte) {
            return false;
        }
    }
    true
}

fn is_ascii(bytes: &[u8]) -> bool
    ensures { result ≡ list_all (λ b. nat_lt b 128) bytes.now }
{
    for byte in bytes {
        if *byte >= 128 {
            return false;
        }
    }
    true
}

fn is_plain_item(item: &Item) -> bool
    ensures { result ≡ specs.is_plain_item item.now }
{
    match item.kind {
        ItemKind::Sign => has_no_control(item.bytes.as_slice()),
        ItemKind::Name => is_ascii(item.bytes.as_slice()),
        _ => true,
    }
}

fn are_plain_items(items: &[Item]) -> bool
    ensures { result ≡ list_all specs.is_plain_item items.now }
{
    for item in items {
        if !is_plain_item(item) {
            return false;
        }
    }
    true
}

/// Whether the items of a file say all that Java reads: the file is UTF-8, nowhere stands `u` or `{` behind a backslash that an even
/// number of backslashes stands directly before, and outside of texts, characters and comments there is no control byte and no name
/// with a byte past ASCII.
#[tactic(auto, unfolding(crate::specs::Plain::is_plain))]
pub fn is_plain(source: &[u8], items: &[Item]) -> bool
    ensures { result ≡ specs.is_plain source.now items.now }
{
    is_text(source) && !has_escape(source) && are_plain_items(items)
}
