// The tables: users of any number, and five roles.
ghost use Rattle.std.specs.Prelude.{◌≡◌, ◌<◌, ◌^◌, [], ◌∷◌, ◌++◌, IfOk, OnOk, string_bytes};
ghost use Rattle.std.specs.Fmt.{decimal};
ghost use Rattle.qbs_base.specs.declared.scalar.Scalar.TheVariants as scalars;
ghost use Rattle.qbs_base.specs.Tables.{NamedRows};
ghost use Rattle.qbs_base.specs.Values.{IsDatabaseOf};
ghost use Rattle.sample_data.specs.Tables as specs;

use qbs_base::{Cells, Db, Kind, Name, NoMemory, Row, Scalar, Text};
use std::alloc::{AllocError, Global};

// ---- Rows

// A text with a number behind it.
fn numbered(alloc: Global, prefix: &str, number: u64) -> Result<String, AllocError>
    ensures { IfOk result (λ s. string_bytes s ≡ prefix.now ++ decimal number) }
{
    let text = format!(in alloc; "{prefix}{number}")?;
    Ok(text)
}

// The user with this number.
fn user_row(alloc: Global, i: u64) -> Result<Row, NoMemory>
    requires { i < 2 ^ 63 }
    ensures { IfOk result (λ row. row ≡ specs.user_row i) }
{
    let name = Text::from_string(numbered(alloc, "n", i % 7)?);
    let cells = vec![in alloc;
        Scalar::Long(i as i64),
        Scalar::Text(name),
        Scalar::Long((i % 5) as i64),
        Scalar::Long((i % 10) as i64),
        Scalar::Bool(i % 2 == 0),
    ]?;
    Ok(Row {
        kind: Kind::Table(0),
        cells: Cells::from_vec(cells),
    })
}

// The role with this number.
fn role_row(alloc: Global, j: u64) -> Result<Row, NoMemory>
    requires { j < 2 ^ 63 }
    ensures { IfOk result (λ row. row ≡ specs.role_row j) }
{
    let label = Text::from_string(numbered(alloc, "r", j)?);
    let cells = vec![in alloc; Scalar::Long(j as i64), Scalar::Text(label)]?;
    Ok(Row {
        kind: Kind::Table(1),
        cells: Cells::from_vec(cells),
    })
}

// ---- Tables

// Adds the first table, with the users.
fn put_users(alloc: Global, n: u64, db: &mut Db) -> Result<(), NoMemory>
    requires few { n < 2 ^ 63 }
    requires none { db.old ≡ [] }
    ensures { OnOk result (db.new ≡ (specs.User, specs.users n) ∷ []) }
{
    db.add_table(Name::from_str(alloc, "User")?)?;
    for i in 0..n {
        db.put_row(0, user_row(alloc, i)?)?;
    }
    Ok(())
}

// Adds roles to the second table.
fn put_roles(alloc: Global, n: u64, db: &mut Db) -> Result<(), NoMemory>
    requires few { n < 2 ^ 63 }
    requires two { (users : NamedRows) × (db.old ≡ users ∷ (specs.Role, []) ∷ []) }
    ensures { (users : NamedRows) → db.old ≡ users ∷ (specs.Role, []) ∷ [] → OnOk result (db.new ≡ users ∷ (specs.Role, specs.roles n) ∷ []) }
{
    for j in 0..n {
        db.put_row(1, role_row(alloc, j)?)?;
    }
    Ok(())
}

/// The tables with so many users, in linear time. Only want of memory is an error.
pub fn sample_tables(alloc: Global, n: u64) -> Result<Db, NoMemory>
    requires { n < 2 ^ 63 }
    ensures exact { IfOk result (λ db. db ≡ specs.sample_rows n) }
    ensures database { IfOk result (λ db. IsDatabaseOf specs.sample_schema db) }
{
    let mut db = Db::new(alloc);
    put_users(alloc, n, &mut db)?;
    db.add_table(Name::from_str(alloc, "Role")?)?;
    put_roles(alloc, 5, &mut db)?;
    Ok(db)
}
