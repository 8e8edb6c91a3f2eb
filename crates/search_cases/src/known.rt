// The known queries of a fragment: none, or the ids of the roles with a label. It is a text, or `?` and the number of an entry.
use qbs_base::{Items, NoMemory, NumberLists, Scalar, Text, Ty, Tys};
use sql_ast::{
    Cmp, Cond, FromItem, ListQuery, Queries, Query, SqlCol, SqlColumn, SqlItem, SqlOpnd,
};
use std::alloc::Global;

fn role_column(alloc: Global, name: &str, number: u32) -> Result<Box<SqlCol>, NoMemory> {
    let name = Text::from_str(alloc, name)?;
    let column = SqlCol {
        item: 1,
        column: SqlColumn::Named { name, number },
    };
    Ok(Box::new(alloc, column)?)
}

fn operand_of(alloc: Global, label: &str) -> Result<Box<SqlOpnd>, NoMemory> {
    let operand = match label.strip_prefix("?") {
        Some(_) => SqlOpnd::Param(1),
        None => SqlOpnd::Lit(Scalar::Text(Text::from_str(alloc, label)?)),
    };
    Ok(Box::new(alloc, operand)?)
}

fn labelled(alloc: Global, label: &str) -> Result<Box<Cond>, NoMemory> {
    let column = role_column(alloc, "label", 1)?;
    let operand = operand_of(alloc, label)?;
    let compared = Cond::Compare(
        Cmp::Eq,
        SqlOpnd::Column(Box::into_inner(column)),
        Box::into_inner(operand),
    );
    Ok(Box::new(alloc, compared)?)
}

fn roles(alloc: Global) -> Result<Items<FromItem>, NoMemory> {
    let name = Text::from_str(alloc, "Role")?;
    let mut items = Items::new(alloc);
    items.push(FromItem { name, table: 1 })?;
    Ok(items)
}

fn params_of(alloc: Global, label: &str) -> Result<Tys, NoMemory> {
    let mut params = Items::new(alloc);
    if label.starts_with("?") {
        params.push(Ty::Text)?;
    }
    Ok(params)
}

// SELECT t1.id FROM Role t1 WHERE t1.label = label
fn role_query(alloc: Global, label: &str) -> Result<Box<Query>, NoMemory> {
    let filter = labelled(alloc, label)?;
    let id = role_column(alloc, "id", 0)?;
    let from = roles(alloc)?;
    let params = params_of(alloc, label)?;
    let query = Query::Listing(ListQuery {
        item: SqlItem::Column(Box::into_inner(id)),
        from,
        filter: Some(Box::into_inner(filter)),
        group: None,
        keys: Items::new(alloc),
        limit: None,
        params,
    });
    Ok(Box::new(alloc, query)?)
}

/// The known queries.
pub fn queries_of(alloc: Global, label: &str) -> Result<Queries, NoMemory> {
    let mut queries = Items::new(alloc);
    if label != "-" {
        let query = role_query(alloc, label)?;
        queries.push(Box::into_inner(query))?;
    }
    Ok(queries)
}

/// For each known query the entries that are its arguments.
pub fn arguments_of(alloc: Global, label: &str) -> Result<NumberLists, NoMemory> {
    let mut lists = Items::new(alloc);
    if label == "-" {
        return Ok(lists);
    }
    let mut entries = Items::new(alloc);
    if let Some(entry) = label.strip_prefix("?") {
        entries.push(entry.parse().unwrap_or(0))?;
    }
    lists.push(entries)?;
    Ok(lists)
}
