// The tables of a map.
ghost use Rattle.std.specs.Prelude.{◌≡◌, ◌++◌, ◌∷◌, [], IfOk, length, option_map};
ghost use Rattle.qbs_base.specs.Columns.{columns_at as columns_at_number};
ghost use Rattle.view_map.specs.Reading.{Gives};
ghost use Rattle.view_map.specs.Tables as specs;

use crate::draft::{Head, MemberDraft, Placed};
use crate::fault::{MapFault, MapRule};
use crate::keys::Keys;
use crate::model::{Member, RowClass};
use crate::reading::{begins, fault_at, given, java_type, name, pair, sign, unexpected, within};
use crate::words::fits_column;
use java_words::{is_among, is_type_word};
use qbs_base::{Column, Fail, Items, Name, NoMemory, columns_at};
use schema::Schema;
use std::alloc::Global;
use view_items::Item;

/// Whether what stands behind the name of a table is next.
fn begins_body(items: &[Item]) -> bool
    ensures { result ≡ specs.begins_body items.now }
{
    begins("by", items) || begins("{", items)
}

/// The name of the table, where it is given.
#[tactic(auto, unfolding(crate::specs::Tables::table_name_at))]
fn table_name(
    alloc: Global,
    end: usize,
    items: &[Item],
) -> Result<(Option<Placed>, &[Item]), Fail<MapFault>>
    ensures { Gives (λ x. (x.0, x.1.now)) result (specs.table_name_at end items.now) }
{
    if begins("=", items) || begins_body(items) {
        given(alloc, end, items)
    } else {
        Err(unexpected(end, items))
    }
}

#[tactic(auto, unfolding(crate::specs::Tables::head_at))]
fn head(alloc: Global, end: usize, items: &[Item]) -> Result<(Head, &[Item]), Fail<MapFault>>
    ensures { Gives (λ x. (x.0, x.1.now)) result (specs.head_at end items.now) }
{
    let (class, rest) = name(alloc, end, items)?;
    let (within, rest) = within(alloc, end, rest)?;
    let (table, rest) = table_name(alloc, end, rest)?;
    Ok((
        Head {
            class,
            within,
            table,
        },
        rest,
    ))
}

/// The name that is given, or else the own one.
fn own_or<'a>(own: &'a Placed, given: &'a Option<Placed>) -> &'a Placed
    ensures { result.now ≡ specs.own_or own.now given.now }
{
    match given {
        None => own,
        Some(given) => given,
    }
}

fn has_class(classes: &[RowClass], name: &[u8]) -> bool
    ensures { result ≡ specs.has_class classes.now name.now }
{
    classes.iter().any(|c| c.class.as_slice() == name)
}

fn has_table(classes: &[RowClass], number: u32) -> bool
    ensures { result ≡ specs.has_table classes.now number }
{
    classes.iter().any(|c| c.table == number)
}

/// Further classes of Java's whose meaning is used.
const JAVA_NAMES: [&str; 7] = [
    "ArrayList",
    "LinkedHashSet",
    "HashSet",
    "Iterator",
    "Collections",
    "Math",
    "Objects",
];

/// Whether a class of this name may not be given.
fn is_taken(classes: &[RowClass], class: &Placed) -> bool
    ensures { result ≡ specs.is_taken classes.now class.now.name }
{
    has_class(classes, class.name.as_slice())
        || (is_type_word(class.name.as_str()) || is_among(class.name.as_str(), &JAVA_NAMES))
}

fn table_known(
    classes: &[RowClass],
    class: &Placed,
    table: &Placed,
    number: u32,
) -> Result<u32, Fail<MapFault>>
    ensures { Gives (λ n. n) result (specs.table_known classes.now class.now table.now number) }
{
    if is_taken(classes, class) {
        Err(fault_at(MapRule::DoubleName, class.at))
    } else if has_table(classes, number) {
        Err(fault_at(MapRule::DoubleName, table.at))
    } else {
        Ok(number)
    }
}

fn table_unknown(classes: &[RowClass], class: &Placed, table: &Option<Placed>) -> Fail<MapFault>
    ensures { result ≡ Fail.Fault (specs.table_unknown classes.now class.now table.now) }
{
    match table {
        Some(_) if is_taken(classes, class) => fault_at(MapRule::DoubleName, class.at),
        Some(table) => fault_at(MapRule::Unknown, table.at),
        None => fault_at(MapRule::Unknown, class.at),
    }
}

/// The number of the table of a head.
#[tactic(auto, unfolding(crate::specs::Tables::table_judged))]
fn judge_table(schema: &Schema, classes: &[RowClass], head: &Head) -> Result<u32, Fail<MapFault>>
    ensures { Gives (λ n. n) result (specs.table_judged schema.now classes.now head.now) }
{
    let table = own_or(&head.class, &head.table);
    match schema.table(&table.name) {
        None => Err(table_unknown(classes, &head.class, &head.table)),
        Some(number) => table_known(classes, &head.class, table, number),
    }
}

/// A member as it is written.
#[tactic(auto, unfolding(crate::specs::Tables::member_at))]
fn member(
    alloc: Global,
    end: usize,
    items: &[Item],
) -> Result<(MemberDraft, &[Item]), Fail<MapFault>>
    ensures { Gives (λ x. (x.0, x.1.now)) result (specs.member_at end items.now) }
{
    let (java, at, rest) = java_type(end, items)?;
    let (name, rest) = name(alloc, end, rest)?;
    let (is_call, rest) = pair("(", ")", end, rest)?;
    let (column, rest) = given(alloc, end, rest)?;
    let (never_null, rest) = pair("never", "null", end, rest)?;
    let rest = sign(";", end, rest)?;
    Ok((
        MemberDraft {
            java,
            at,
            name,
            is_call,
            column,
            never_null,
        },
        rest,
    ))
}

/// Whether the schema says that a column is never NULL.
fn is_never_null(column: &Column) -> bool
    ensures { result ≡ specs.is_never_null column.now }
{
    column.not_null || column.primary
}

/// The first column of a name in the table of a number, and its number.
fn column_of<'a>(schema: &'a Schema, table: u32, name: &Name) -> Option<(u32, &'a Column)>
    ensures { option_map (λ x. (x.0, x.1.now)) result ≡ specs.column_of (columns_at_number schema.now table) name.now }
{
    let number = schema.column(table, name)?;
    match columns_at(schema.tables(), table).get(number as usize) {
        None => None,
        Some(column) => Some((number, column)),
    }
}

/// A member of a column that is there, which is added to those of these names.
fn member_known(
    alloc: Global,
    names: &mut Keys,
    draft: MemberDraft,
    number: u32,
    column: &Column,
) -> Result<Member, Fail<MapFault>>
    ensures value { Gives (λ m. m) result (specs.member_known names.old draft number column.now) }
    ensures names { IfOk result (λ m. names.new ≡ names.old ++ m.name ∷ []) }
{
    if !fits_column(draft.java.kind, column.ty) {
        return Err(fault_at(MapRule::Mismatch, draft.at));
    }
    let key = draft.name.name.as_slice().to_vec(alloc)?;
    if !names.add(key)? {
        return Err(fault_at(MapRule::DoubleName, draft.name.at));
    }
    if !draft.never_null && !is_never_null(column) {
        return Err(fault_at(MapRule::Nullable, draft.name.at));
    }
    Ok(Member {
        java: draft.java,
        name: draft.name.name,
        is_call: draft.is_call,
        column: number,
    })
}

/// The fault of a member of a column that isn't there.
fn member_unknown(
    alloc: Global,
    names: &mut Keys,
    name: &Placed,
    column: &Option<Placed>,
) -> Result<Fail<MapFault>, NoMemory>
    ensures { IfOk result (λ f. f ≡ Fail.Fault (specs.member_unknown names.old name.now column.now)) }
{
    let Some(column) = column else {
        return Ok(fault_at(MapRule::Unknown, name.at));
    };
    let key = name.name.as_slice().to_vec(alloc)?;
    if names.add(key)? {
        Ok(fault_at(MapRule::Unknown, column.at))
    } else {
        Ok(fault_at(MapRule::DoubleName, name.at))
    }
}

/// The member that was read, which is added to those of these names.
#[tactic(auto, unfolding(crate::specs::Tables::member_judged))]
fn judge_member(
    alloc: Global,
    schema: &Schema,
    table: u32,
    names: &mut Keys,
    draft: MemberDraft,
) -> Result<Member, Fail<MapFault>>
    ensures value { Gives (λ m. m) result (specs.member_judged (columns_at_number schema.now table) names.old draft) }
    ensures names { IfOk result (λ m. names.new ≡ names.old ++ m.name ∷ []) }
{
    let column = own_or(&draft.name, &draft.column);
    match column_of(schema, table, &column.name) {
        Some((number, column)) => member_known(alloc, names, draft, number, column),
        None => Err(member_unknown(alloc, names, &draft.name, &draft.column)?),
    }
}

/// The next member of a table, which is added to those of these names.
#[tactic(auto, unfolding(crate::specs::Tables::next_member_at))]
fn next_member<'a>(
    alloc: Global,
    schema: &Schema,
    table: u32,
    names: &mut Keys,
    end: usize,
    items: &'a [Item],
) -> Result<(Member, &'a [Item]), Fail<MapFault>>
    ensures value { Gives (λ x. (x.0, x.1.now)) result (specs.next_member_at (columns_at_number schema.now table) names.old end items.now) }
    ensures names { IfOk result (λ x. names.new ≡ names.old ++ x.0.name ∷ []) }
{
    let (draft, rest) = member(alloc, end, items)?;
    let member = judge_member(alloc, schema, table, names, draft)?;
    Ok((member, rest))
}

/// The members of a table, up to the brace that closes them.
fn members<'a>(
    alloc: Global,
    schema: &Schema,
    table: u32,
    end: usize,
    items: &'a [Item],
) -> Result<(Items<Member>, &'a [Item]), Fail<MapFault>>
    ensures { Gives (λ x. (x.0, x.1.now)) result (specs.members_at (columns_at_number schema.now table) [] (length items.now) end items.now) }
{
    let mut list = Items::new(alloc);
    let mut names = Keys::new(alloc);
    let mut rest = items;
    // Each has an item at least.
    for _ in 0..items.len() {
        if begins("}", rest) {
            return Ok((list, sign("}", end, rest)?));
        }
        let (member, after) = next_member(alloc, schema, table, &mut names, end, rest)?;
        list.push(member)?;
        rest = after;
    }
    Err(unexpected(end, rest))
}

/// What stands behind `table`.
#[tactic(auto, unfolding(crate::specs::Tables::table_at))]
pub fn table<'a>(
    alloc: Global,
    schema: &Schema,
    classes: &[RowClass],
    end: usize,
    items: &'a [Item],
) -> Result<(RowClass, &'a [Item]), Fail<MapFault>>
    ensures { Gives (λ x. (x.0, x.1.now)) result (specs.table_at schema.now classes.now end items.now) }
{
    let (head, rest) = head(alloc, end, items)?;
    let number = judge_table(schema, classes, &head)?;
    let (by_value, rest) = pair("by", "value", end, rest)?;
    let rest = sign("{", end, rest)?;
    let (members, rest) = members(alloc, schema, number, end, rest)?;
    Ok((
        RowClass {
            class: head.class.name,
            within: head.within,
            table: number,
            by_value,
            members,
        },
        rest,
    ))
}
