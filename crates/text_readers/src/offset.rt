// The place of a fault.
ghost use Rattle.std.specs.Prelude.{◌≡◌, ◌-◌};
ghost use Rattle.text_readers.specs.Answers.{left_of};

use readers::Fault;

/// How many bytes are left from a fault on.
fn left(fault: Fault) -> usize
    ensures { result ≡ left_of fault }
{
    match fault {
        Fault::Unexpected(left) => left,
        Fault::TooDeep(left) => left,
    }
}

/// How many of so many bytes stand before a fault.
pub fn offset_of(count: usize, fault: Fault) -> u64
    ensures { result ≡ count - left_of fault }
{
    count.saturating_sub(left(fault)) as u64
}
