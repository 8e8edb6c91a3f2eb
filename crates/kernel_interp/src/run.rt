// The run of an accumulator by itself.
ghost use Rattle.std.specs.Prelude.{◌≡◌, drop};
ghost use Rattle.kernel_lang.specs.Plain.{accumulator};
ghost use Rattle.kernel_lang.specs.Running as kernel;
ghost use Rattle.kernel_interp.specs.Ends.{Gives, GivesValue, NumbersFit, IsReady, update_of, data_of};
ghost use Rattle.kernel_interp.specs.Reading.{rows_in, world_of, flagged, plain_of};

use crate::given::rows_of;
use crate::place::Place;
use crate::running::{Running, source_value, started, updated};
use crate::setting::Setting;
use crate::truth::passes;
use kernel_lang::Acc;
use kernel_steps::Stop;
use qbs_base::Value;

/// What an accumulator has after its loops from a level on.
fn run(
    setting: Setting,
    acc: &Acc,
    level: usize,
    running: Running,
    place: &Place,
) -> Result<Running, Stop>
    requires { NumbersFit (world_of setting).lists (update_of running) (drop level (kernel.layers_of (accumulator acc.now))) (rows_in place.now) }
    ensures { Gives result (update_of running) (
        kernel.run (flagged setting.entry) (plain_of setting.entry).atoms (update_of running) (drop level (kernel.layers_of (accumulator acc.now))) (rows_in place.now) (data_of running)) }
{
    let over = match acc.chain.as_slice().get(level) {
        Some(over) => *over,
        None => return updated(setting.alloc, running, place),
    };
    let mut current = running;
    let rows = rows_of(setting, over);
    for row in rows {
        let here = Place::In(over, row, &*place);
        if passes(setting, acc, level, &here) {
            current = run(setting, acc, level + 1, current, &here)?;
        }
    }
    Ok(current)
}

/// What the source's variable of an accumulator with base 0 is at the end.
pub fn ends_as(setting: Setting, acc: &Acc) -> Result<Value, Stop>
    requires { IsReady (world_of setting) (accumulator acc.now) }
    ensures { GivesValue result (kernel.ends_as (plain_of setting.entry) (world_of setting.entry) (accumulator acc.now)) }
{
    let outside = Place::Outside(setting.no_row);
    let running = run(setting, acc, 0, started(setting.alloc, acc), &outside)?;
    Ok(source_value(running, acc.opposite))
}
