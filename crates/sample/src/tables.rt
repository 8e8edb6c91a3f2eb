// The schema of the tables, by its text.
ghost use Rattle.std.specs.Prelude.{◌≡◌, IfOk};
ghost use Rattle.sample_data.specs.Tables as specs;

use qbs_base::{Fail, NoMemory};
use schema::Schema;
use schema_text::parse_schema;
use std::alloc::Global;

static TEXT: &str =
    "CREATE TABLE User (id BIGINT, name TEXT, roleId BIGINT, age BIGINT, active BOOLEAN);CREATE TABLE Role (id BIGINT, label TEXT);";

/// The schema of the tables. Only want of memory is an error.
pub fn sample_schema(alloc: Global) -> Result<Schema, NoMemory>
    ensures { IfOk result (λ schema. schema ≡ specs.sample_schema) }
{
    match parse_schema(alloc, TEXT.as_bytes()) {
        Ok(schema) => Ok(schema),
        Err(Fail::NoMemory) => Err(NoMemory),
        Err(Fail::Fault(_)) => unreachable!(),
    }
}
