// The order of what the class compares.
ghost use Rattle.std.specs.Prelude.{◌≡◌};

/// The operands by which a user's role is compared with a role, in their order.
pub fn operands<T>(user: T, role: T) -> (T, T)
    ensures { result ≡ (user, role) }
{
    (user, role)
}
