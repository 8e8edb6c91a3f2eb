// The run of a fragment.
ghost use Rattle.std.specs.Prelude.{◌≡◌, IfOk};
ghost use Rattle.std.specs.List.{AllByRecursion};
ghost use Rattle.kernel_lang.specs.Fitting.{PartsFit};
ghost use Rattle.kernel_lang.specs.Running as kernel;
ghost use Rattle.kernel_lang.specs.Whole.{fragment_of};
ghost use Rattle.kernel_interp.specs.Ends.{GivesValues, IsReady, end_of};
ghost use Rattle.kernel_interp.specs.Reading.{world_of, plain_of};

use crate::list::all_listed;
use crate::run::ends_as;
use crate::setting::Setting;
use kernel_lang::{Entry, KFragment};
use kernel_steps::{FragmentEnd, Stop, ended};
use qbs_base::{Db, Items, Kind, NoMemory, Row, Values};
use std::alloc::Global;

fn all_end(setting: Setting) -> Result<Values, Stop>
    requires { AllByRecursion (IsReady (world_of setting)) (plain_of setting).accs }
    ensures { GivesValues result (kernel.all_end (plain_of setting.entry) (world_of setting.entry) (plain_of setting.entry).accs) }
{
    let mut values = Items::new(setting.alloc);
    let accs = setting.frag.accs.as_slice();
    for acc in accs {
        if acc.base == 0 {
            values.push(ends_as(setting, acc)?)?;
        }
    }
    Ok(values)
}

/// What a fragment ends with over the rows of a database, with these entry values and known lists.
/// Its parts have to fit them. `Overflow` comes exactly where a running count or sum leaves 64 bits.
pub fn run_fragment(
    alloc: Global,
    frag: &KFragment,
    db: &Db,
    entry: &Entry,
) -> Result<FragmentEnd, NoMemory>
    requires { PartsFit (fragment_of frag.now) db.now entry.now }
    ensures exact { IfOk result (λ end. end_of end ≡ kernel.fragment_end (fragment_of frag.now) db.now entry.now) }
{
    let lists = all_listed(alloc, db, frag.lists.as_slice())?;
    let no_row = Row {
        kind: Kind::Plain,
        cells: Items::new(alloc),
    };
    let setting = Setting {
        alloc,
        frag,
        lists: lists.as_slice(),
        given: entry,
        no_row: &no_row,
    };
    ended(all_end(setting))
}
