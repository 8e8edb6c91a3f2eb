// What a search does next.
ghost use Rattle.std.specs.Prelude.{◌≡◌, ◌+◌, ◌-◌, ◌/◌, ◌<◌, ◌≤◌, ◌^◌, MatchOption, length, min, nat_le};
ghost use Rattle.std.specs.List.{IsFirstAndRest};

/// How many of `n` candidates are judged: no more than the budget.
pub fn most_judged(budget: u64, n: u64) -> u64
    ensures { result ≡ min budget n }
{
    budget.min(n)
}

/// Whether the budget reaches to the last of `n` candidates.
pub fn are_all(n: u64, budget: u64) -> bool
    ensures { result ≡ nat_le n budget }
{
    n <= budget
}

/// Two halves of `n` candidates from the number `k` on, each by its first number and how many it has, in the order in which
/// they are walked.
pub fn halves(k: u64, n: u64) -> ((u64, u64), (u64, u64))
    requires more { 2 ≤ n }
    requires small { k + n < 2 ^ 64 }
    ensures from { result.0.0 ≡ k }
    ensures half { result.0.1 ≡ n / 2 }
    ensures behind { result.1.0 ≡ k + n / 2 }
    ensures others { result.1.1 ≡ n - n / 2 }
{
    let half = n / 2;
    ((k, half), (k + half, n - half))
}

/// The first of those that are asked, and those behind it; None where there is none.
pub fn first_asked<T>(all: &[T]) -> Option<(&T, &[T])>
    ensures { MatchOption result (length all.now ≡ 0) (λ p. IsFirstAndRest all.now p.0.now p.1.now) }
{
    all.split_first()
}
