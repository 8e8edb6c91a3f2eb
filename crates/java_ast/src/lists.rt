// Items of a list put in place of others.
ghost use Rattle.std.specs.Prelude.{◌≡◌, ◌≤◌, ◌++◌, suc, length, OnOk, take, drop};

use qbs_base::NoMemory;

/// Others in place of the items from one number up to another: what stands behind them is moved once.
fn put_between<T: Drop>(
    list: &mut Vec<T>,
    start: usize,
    end: usize,
    others: Vec<T>,
) -> Result<(), NoMemory>
    requires order { start ≤ end }
    requires within { end ≤ length list.old.items }
    ensures { OnOk result (list.new.items ≡ take start list.old.items ++ (others.items ++ drop end list.old.items)) }
{
    list.splice(start..end, others)?;
    Ok(())
}

/// Others in place of the items from the number `first` to the number `last`. Its only error is want of memory.
pub fn put_items<T: Drop>(
    list: &mut Vec<T>,
    first: u64,
    last: u64,
    others: Vec<T>,
) -> Result<(), NoMemory>
    requires { first ≤ last }
    ensures { OnOk result (list.new.items ≡ (take first list.old.items ++ others.items) ++ drop (suc last) list.old.items) }
{
    let len = list.len();
    if (last as usize) < len {
        put_between(list, first as usize, last as usize + 1, others)
    } else if (first as usize) < len {
        put_between(list, first as usize, len, others)
    } else {
        put_between(list, len, len, others)
    }
}
