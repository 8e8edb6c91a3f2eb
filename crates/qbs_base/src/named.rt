// Look-ups in lists of values under names.
ghost use Rattle.std.specs.Prelude.{◌≡◌, position};
ghost use Rattle.std.specs.Option.{option_copied};
ghost use Rattle.qbs_base.specs.Named.{at_name};
ghost use Rattle.std.specs.Str.{bytes_eq};

use crate::Text;

/// The first value under a name.
pub fn find_name<'a, V>(entries: &'a [(Text, V)], name: &Text) -> Option<&'a V>
    ensures { option_copied result ≡ at_name entries.now name.now }
{
    for entry in entries {
        if entry.0 == *name {
            return Some(&entry.1);
        }
    }
    None
}

/// The place of the first value under a name.
pub fn find_place<V>(entries: &[(Text, V)], name: &Text) -> Option<usize>
    ensures { result ≡ position (λ entry. bytes_eq entry.0 name.now) entries.now }
{
    entries.iter().position(|entry| entry.0 == *name)
}
