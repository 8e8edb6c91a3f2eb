// How many items a bank holds.
ghost use Rattle.std.specs.Prelude.{◌≡◌, nat_le};

const MOST_ITEMS: usize = 256;

/// Whether a bank that holds so many items takes no more.
pub fn is_full(held: usize) -> bool
    ensures { result ≡ nat_le 256 held }
{
    held >= MOST_ITEMS
}
