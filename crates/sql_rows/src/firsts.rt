// First occurrences.
ghost use Rattle.std.specs.Prelude.{◌≡◌, IfOk, OnOk};
ghost use Rattle.sql_ast.specs.Grouped.{firsts as firsts_of};
ghost use Rattle.sql_rows.specs.Firsts.{same_by, Meets};

use qbs_base::NoMemory;
use std::alloc::Global;
use std::collections::BTreeSet;

fn meet<K: Ord + Copy>(seen: &mut BTreeSet<K>, list: &mut Vec<K>, key: K) -> Result<(), NoMemory>
    ensures { OnOk result (Meets K.cmp seen.old list.old.items key seen.new list.new.items) }
{
    if seen.insert(key)? {
        list.push(key)?;
    }
    Ok(())
}

/// The keys, each once, in the order in which they occur first.
pub fn first_occurrences<K: Ord + Copy>(alloc: Global, keys: &[K]) -> Result<Vec<K>, NoMemory>
    ensures { IfOk result (λ v. v.items ≡ firsts_of (same_by K.cmp) keys.now) }
{
    let mut seen = BTreeSet::new(alloc);
    let mut list = Vec::new(alloc);
    for key in keys {
        meet(&mut seen, &mut list, *key)?;
    }
    Ok(list)
}
