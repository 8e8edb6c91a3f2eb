// The numbers of small databases.
ghost use Rattle.std.specs.Prelude.{◌≡◌, ◌∷◌, []};

/// The numbers of the eight small databases of a fragment, in their order.
pub fn small_numbers() -> [usize; 8]
    ensures { result ≡ 0 ∷ 1 ∷ 2 ∷ 3 ∷ 4 ∷ 5 ∷ 6 ∷ 7 ∷ [] }
{
    [0, 1, 2, 3, 4, 5, 6, 7]
}
