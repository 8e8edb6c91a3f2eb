// Which program is run.
ghost use Rattle.std.specs.Prelude.{◌≡◌};
ghost use Rattle.deliveries.specs.Code.{one_run};

/// The program that is run: the rewritten one where there is one, else the one that was read.
pub fn program_run<'a, T>(read: &'a T, rewritten: &'a Option<T>) -> &'a T
    ensures { result.now ≡ one_run read.now rewritten.now }
{
    match rewritten {
        Some(other) => other,
        None => read,
    }
}
