// A turn of a loop.
ghost use Rattle.std.specs.Prelude.{◌≡◌, ◌+◌, OnOk};
ghost use Rattle.java_mean.specs.Statement as meant;
ghost use Rattle.java_steps.specs.Gives.{Leaves};
ghost use Rattle.java_steps.specs.Running.{state};

use java_mean::Ending;
use java_steps::machine::Machine;
use java_steps::stop::Stop;

/// Takes a turn.
pub fn take_turn(m: &mut Machine) -> Result<(), Stop>
    ensures leaves { Leaves result (state m.new) (meant.turn (state m.old)) }
    ensures fewer { OnOk result (m.old.turns ≡ m.new.turns + 1) }
{
    if m.turns == 0 {
        return Err(Stop::Ends(Ending::OutOfTurns));
    }
    m.turns -= 1;
    Ok(())
}
