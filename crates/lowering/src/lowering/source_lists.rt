// The lists that loops go over, as a fragment has them.
ghost use Rattle.std.specs.Prelude.{◌≡◌, IfOk, map};
ghost use Rattle.std.specs.Option.{option_map};
ghost use Rattle.java_ast.specs.Reading.{statement};
ghost use Rattle.qbs_base.specs.Columns.{column_number, columns_at};
ghost use Rattle.java_loops.specs.Lowering.Lowered as specs;
ghost use Rattle.java_loops.specs.Lowering.Numbering.{found_number};
ghost use Rattle.lowering.specs.InCode.Reading.{setting_in_code};
ghost use Rattle.loop_text.specs.Sites.Reading.{site_of, source_in_code};

use crate::numbering::numbers::table_of_loop;
use java_ast::Stmt;
use kernel_lang::{Col, Cols, ListDef, ListDefs};
use loop_setting::places::setting::Setting;
use loop_text::loops::counting::{counting_in, limit_of};
use loop_text::loops::limits::is_loop;
use loop_text::loops::lists::{Source, source_in};
use qbs_base::{Name, NoMemory};
use schema::Schema;
use std::alloc::Global;

/// The number of a column in a table, and 0 where it has none.
pub fn column_at(schema: &Schema, table: u32, name: &Name) -> u32
    ensures { result ≡ found_number (column_number (columns_at schema.now table) name.now) }
{
    match schema.column(table, name) {
        Some(n) => n,
        None => 0,
    }
}

fn keys_of(
    alloc: Global,
    schema: &Schema,
    table: u32,
    keys: &[Name],
    downs: &[bool],
) -> Result<Cols, NoMemory>
    ensures { IfOk result (λ cols. cols ≡ specs.keys_of (columns_at schema.now table) keys.now downs.now) }
{
    let mut cols = Cols::new(alloc);
    for (name, down) in keys.iter().zip(downs) {
        cols.push(Col {
            column: column_at(schema, table, name),
            down: *down,
        })?;
    }
    Ok(cols)
}

fn keys_found(
    alloc: Global,
    schema: &Schema,
    table: u32,
    source: Option<Source>,
) -> Result<Cols, NoMemory>
    ensures { IfOk result (λ cols. cols ≡ specs.keys_found (columns_at schema.now table) (option_map source_in_code source.entry)) }
{
    match source {
        None => Ok(Cols::new(alloc)),
        Some(s) => keys_of(alloc, schema, table, s.keys, s.downs),
    }
}

// The rows of a loop's table, sorted by keys where the run sorts them, and cut to the limit.
fn list_of(alloc: Global, w: &Setting, s: &Stmt) -> Result<ListDef, NoMemory>
    ensures { IfOk result (λ d. d ≡ specs.list_of (setting_in_code w.now) (statement s.now)) }
{
    let table = table_of_loop(w.schema, s);
    let keys = keys_found(alloc, w.schema, table, source_in(w.fragment.run, s))?;
    Ok(ListDef {
        table,
        keys,
        limit: limit_of(counting_in(s)),
    })
}

/// The lists of all loops, in text order.
#[tactic(auto, using(crate::proofs::Lowerings::LoweredLists::lowered_lists))]
pub fn lists_of(alloc: Global, w: &Setting) -> Result<ListDefs, NoMemory>
    ensures { IfOk result (λ ds. ds ≡ specs.lists_of (setting_in_code w.now) (map site_of w.now.sites.now)) }
{
    let mut lists = ListDefs::new(alloc);
    for s in w.sites.as_slice() {
        if is_loop(s.statement) {
            lists.push(list_of(alloc, w, s.statement)?)?;
        }
    }
    Ok(lists)
}
