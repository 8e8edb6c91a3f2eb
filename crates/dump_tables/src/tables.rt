// The tables of a dump's statements.
ghost use Rattle.std.specs.Prelude.{◌≡◌, ◌++◌, ◌∷◌, [], IfOk, OnOk, map, option_map};
ghost use Rattle.dump_tables.specs.Tables as specs;
ghost use Rattle.dump_tables.specs.Parts.{parts as parts_of};
ghost use Rattle.dump_tables.specs.Numbered.{AreNumbered};
ghost use Rattle.dump_tables.specs.Words.{meaning as meaning_of_item};

use crate::DumpTable;
use crate::columns::{copied, take_elements, take_null};
use crate::numbers::Numbers;
use crate::parts::parts;
use crate::words::{
    begins, begins_pair, begins_three, is_dot, is_name, is_open, is_quoted, meaning, without,
    without_if_not_exists, without_words,
};
use dump_items::{Item, Statement};
use qbs_base::{Items, NoMemory};
use std::alloc::Global;

/// What stands between CREATE and TABLE.
const KINDS: [&str; 9] = [
    "TEMP",
    "TEMPORARY",
    "UNLOGGED",
    "GLOBAL",
    "LOCAL",
    "CACHED",
    "MEMORY",
    "OR",
    "REPLACE",
];

/// Whether a name goes on with these: a dot and a name.
fn goes_on(dot: &Item, next: &Item) -> bool
    ensures { result ≡ specs.goes_on dot.now next.now }
{
    is_dot(dot.kind) && is_name(next.kind)
}

/// The last part of a name that begins with this one, and what stands behind it.
#[tactic(auto, unfolding(crate::specs::Tables::last_part))]
fn last_part<'a>(first: &'a Item, behind: &'a [Item]) -> (&'a Item, &'a [Item])
    ensures { (result.0.now, result.1.now) ≡ specs.last_part first.now behind.now }
{
    let mut part = first;
    let mut rest = behind;
    while let [dot, next, after @ ..] = rest {
        if !goes_on(dot, next) {
            return (part, rest);
        }
        part = next;
        rest = after;
    }
    (part, rest)
}

/// The last part of the name at the front, and what stands behind it.
fn qualified(items: &[Item]) -> Option<(&Item, &[Item])>
    ensures { option_map (λ p. (p.0.now, p.1.now)) result ≡ specs.qualified items.now }
{
    match items {
        [first, rest @ ..] if is_name(first.kind) => Some(last_part(first, rest)),
        _ => None,
    }
}

/// What stands behind TABLE and IF NOT EXISTS.
fn behind_table(items: &[Item]) -> Option<&[Item]>
    ensures { option_map (λ is. is.now) result ≡ specs.behind_table items.now }
{
    if begins("TABLE", items) {
        Some(without_if_not_exists(&items[1..]))
    } else {
        None
    }
}

/// What stands behind CREATE .. TABLE.
fn created(items: &[Item]) -> Option<&[Item]>
    ensures { option_map (λ is. is.now) result ≡ specs.created items.now }
{
    if begins("CREATE", items) {
        behind_table(without_words(&KINDS, &items[1..]))
    } else {
        None
    }
}

/// What stands behind ALTER TABLE.
fn altered(items: &[Item]) -> Option<&[Item]>
    ensures { option_map (λ is. is.now) result ≡ specs.altered items.now }
{
    if begins_pair("ALTER", "TABLE", items) {
        Some(without_words(&["IF", "EXISTS", "ONLY"], &items[2..]))
    } else {
        None
    }
}

fn new_table(alloc: Global, name: &Item) -> Result<DumpTable, NoMemory>
    ensures { IfOk result (λ t. t ≡ specs.new_table name.now) }
{
    Ok(DumpTable {
        name: copied(alloc, meaning(name))?,
        quoted: is_quoted(name.kind),
        columns: Items::new(alloc),
    })
}

/// The table of this name and the elements behind a parenthesis.
#[tactic(auto, using(crate::proofs::Named::made_name))]
fn made_table(alloc: Global, name: &Item, elements: &[Item]) -> Result<DumpTable, NoMemory>
    ensures value { IfOk result (λ t. t ≡ specs.made_table name.now elements.now) }
    ensures name { IfOk result (λ t. t.name ≡ meaning_of_item name.now) }
{
    let mut table = new_table(alloc, name)?;
    let elements = parts(alloc, elements)?;
    take_elements(alloc, &mut table, elements.as_slice())?;
    Ok(table)
}

/// Takes what ADD adds.
fn take_added(alloc: Global, table: &mut DumpTable, items: &[Item]) -> Result<(), NoMemory>
    ensures { OnOk result (table.new ≡ specs.with_added table.old items.now) }
{
    match items {
        [] => Ok(()),
        [first, rest @ ..] if is_open(first.kind) => {
            let elements = parts(alloc, rest)?;
            take_elements(alloc, table, elements.as_slice())
        }
        _ => {
            let element = without_if_not_exists(without("COLUMN", items));
            take_elements(alloc, table, &[element])
        }
    }
}

/// Takes what ALTER COLUMN says of NULL.
fn take_altered_column(alloc: Global, table: &mut DumpTable, items: &[Item])
    ensures { table.new ≡ specs.with_altered_column table.old items.now }
{
    if let [name, rest @ ..] = items {
        if begins_three("SET", "NOT", "NULL", rest) {
            take_null(alloc, table, meaning(name), true);
        } else if begins_three("DROP", "NOT", "NULL", rest) {
            take_null(alloc, table, meaning(name), false);
        }
    }
}

/// Takes an action of ALTER TABLE.
#[tactic(auto, unfolding(crate::specs::Tables::with_action))]
fn take_action(alloc: Global, table: &mut DumpTable, action: &[Item]) -> Result<(), NoMemory>
    ensures { OnOk result (table.new ≡ specs.with_action table.old action.now) }
{
    if begins("ADD", action) {
        take_added(alloc, table, &action[1..])
    } else if begins("ALTER", action) {
        take_altered_column(alloc, table, without("COLUMN", &action[1..]));
        Ok(())
    } else {
        Ok(())
    }
}

/// Takes actions of ALTER TABLE in order.
#[tactic(auto, unfolding(crate::specs::Tables::with_actions))]
fn take_actions(alloc: Global, table: &mut DumpTable, actions: &[&[Item]]) -> Result<(), NoMemory>
    ensures { OnOk result (table.new ≡ specs.with_actions table.old (map (λ a. a.now) actions.now)) }
{
    for action in actions {
        take_action(alloc, table, action)?;
    }
    Ok(())
}

/// The tables so far, and the number of the last one of each name.
#[derive(Drop)]
struct Tables<'a> {
    tables: Vec<DumpTable>,
    numbers: Numbers<'a>,
}

impl<'a> Tables<'a> {
    /// Adds a table.
    #[tactic(auto, using(crate::proofs::Named::numbered_added))]
    fn add(&mut self, name: &'a [u8], table: DumpTable) -> Result<(), NoMemory>
        requires named { table.name ≡ name.now }
        requires numbered { AreNumbered self.old.numbers self.old.tables.items }
        ensures tables { OnOk result (self.new.tables.items ≡ self.old.tables.items ++ table ∷ []) }
        ensures numbered { OnOk result (AreNumbered self.new.numbers self.new.tables.items) }
    {
        self.numbers.put(name, self.tables.len())?;
        self.tables.push(table)?;
        Ok(())
    }

    /// Takes what stands behind the name of a table that is created.
    fn create_named(&mut self, alloc: Global, name: &'a Item, rest: &[Item]) -> Result<(), NoMemory>
        requires numbered { AreNumbered self.old.numbers self.old.tables.items }
        ensures tables { OnOk result (self.new.tables.items ≡ specs.with_declared_by self.old.tables.items name.now rest.now) }
        ensures numbered { OnOk result (AreNumbered self.new.numbers self.new.tables.items) }
    {
        match rest {
            [first, elements @ ..] if is_open(first.kind) => {
                let table = made_table(alloc, name, elements)?;
                self.add(meaning(name), table)
            }
            _ => Ok(()),
        }
    }

    /// Takes what stands behind CREATE TABLE.
    fn create(&mut self, alloc: Global, items: &'a [Item]) -> Result<(), NoMemory>
        requires numbered { AreNumbered self.old.numbers self.old.tables.items }
        ensures tables { OnOk result (self.new.tables.items ≡ specs.with_declared self.old.tables.items items.now) }
        ensures numbered { OnOk result (AreNumbered self.new.numbers self.new.tables.items) }
    {
        match qualified(items) {
            Some((name, rest)) => self.create_named(alloc, name, rest),
            None => Ok(()),
        }
    }

    /// Changes the table of this number.
    #[tactic(auto, using(crate::proofs::Named::numbered_changed, crate::proofs::Named::changed_at, crate::proofs::Named::unchanged_at))]
    fn change(&mut self, alloc: Global, number: usize, items: &[Item]) -> Result<(), NoMemory>
        requires numbered { AreNumbered self.old.numbers self.old.tables.items }
        ensures tables { OnOk result (self.new.tables.items ≡ specs.with_table_at self.old.tables.items number (parts_of 0 items.now)) }
        ensures numbered { OnOk result (AreNumbered self.new.numbers self.new.tables.items) }
    {
        if number < self.tables.len() {
            let actions = parts(alloc, items)?;
            take_actions(alloc, &mut self.tables[number], actions.as_slice())?;
        }
        Ok(())
    }

    /// Takes what stands behind ALTER TABLE.
    fn alter(&mut self, alloc: Global, items: &[Item]) -> Result<(), NoMemory>
        requires numbered { AreNumbered self.old.numbers self.old.tables.items }
        ensures tables { OnOk result (self.new.tables.items ≡ specs.with_altered self.old.tables.items items.now) }
        ensures numbered { OnOk result (AreNumbered self.new.numbers self.new.tables.items) }
    {
        let Some((name, rest)) = qualified(items) else {
            return Ok(());
        };
        match self.numbers.of(meaning(name)) {
            Some(number) => self.change(alloc, number, rest),
            None => Ok(()),
        }
    }

    /// Takes a statement.
    #[tactic(auto, unfolding(crate::specs::Tables::with_statement))]
    fn take(&mut self, alloc: Global, statement: &'a [Item]) -> Result<(), NoMemory>
        requires numbered { AreNumbered self.old.numbers self.old.tables.items }
        ensures tables { OnOk result (self.new.tables.items ≡ specs.with_statement self.old.tables.items statement.now) }
        ensures numbered { OnOk result (AreNumbered self.new.numbers self.new.tables.items) }
    {
        if let Some(items) = created(statement) {
            self.create(alloc, items)
        } else if let Some(items) = altered(statement) {
            self.alter(alloc, items)
        } else {
            Ok(())
        }
    }
}

/// The tables that the statements declare, in order. Any statements have some or none. It fails only by want of memory.
#[tactic(auto, unfolding(crate::specs::Tables::with_statements, crate::specs::Tables::tables_of))]
pub fn tables_of(alloc: Global, statements: &[Statement]) -> Result<Items<DumpTable>, NoMemory>
    ensures { IfOk result (λ ts. ts ≡ specs.tables_of statements.now) }
{
    let mut state = Tables {
        tables: Vec::new(alloc),
        numbers: Numbers::new(alloc),
    };
    for statement in statements {
        state.take(alloc, statement.as_slice())?;
    }
    Ok(Items::from_vec(state.tables))
}
