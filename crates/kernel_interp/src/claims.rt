// What postconditions are read over.
ghost use Rattle.std.specs.Prelude.{◌≡◌, true};
ghost use Rattle.kernel_interp.specs.Members.{members_seen, are_sound};
ghost use Rattle.kernel_interp.specs.Reading.{plain_of};

use crate::member::Member;
use crate::setting::Setting;

/// What postconditions are read over: the lists of loops, entry values and known lists, and the
/// accumulators with their choices.
#[derive(Clone, Copy)]
pub struct Claims<'a, 'b, 'c> {
    pub setting: Setting<'a>,
    pub members: &'b [Member<'c>],
    ghost sound: { are_sound (plain_of setting).atoms (members_seen members.now) ≡ true },
}
