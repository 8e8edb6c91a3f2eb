// Query texts that were read.
ghost use Rattle.std.specs.Prelude.{◌≡◌, ◌&&◌, IfOk, OnOk, IfSome, is_some, true, box_value, nat_eq};
ghost use Rattle.std.specs.List.{list_any};
ghost use Rattle.std.specs.Option.{option_map};
ghost use Rattle.sql_ast.specs.Reading.{query};
ghost use Rattle.java_types.specs.Texts.{read_by};
ghost use Rattle.java_steps.specs.IsRead.{IsRead, marked, unread};

use crate::placed::at_place;
use crate::tables::Tables;
use indexmap::{IndexMap, IndexSet};
use qbs_base::{Db, Fail, NoMemory, Text};
use schema::Schema;
use sql_ast::Query;
use sql_parse::parse_query;
use std::alloc::Global;
use std::marker::Model;

/// The query that a text has under the schema, and none where it has none.
#[tactic(auto, using(crate::proofs::Answerable::answerable))]
pub fn read_query(
    alloc: Global,
    schema: &Schema,
    text: &Text,
) -> Result<Option<Box<Query>>, NoMemory>
    ensures read { IfOk result (λ q. option_map query (option_map box_value q) ≡ read_by schema.now text.now) }
    ensures answered { IfOk result (λ q. IfSome q (λ q. IsRead schema.now text.now (query q.value))) }
{
    let _size = text.as_str().len();
    match parse_query(alloc, schema, text) {
        Ok(q) => Ok(Some(Box::new(alloc, q)?)),
        Err(Fail::Fault(_)) => Ok(None),
        Err(Fail::NoMemory) => Err(NoMemory),
    }
}

/// The queries of texts under a schema, each text read once, and the numbers of those that may be
/// asked many times.
#[derive(Drop)]
pub struct Queries<'a> {
    alloc: Global,
    schema: &'a Schema,
    known: IndexMap<&'a [u8], Box<Query>>,
    repeated: IndexSet<usize>,
}

impl<'a> Model for Queries<'a> {
    ghost use Rattle.java_steps.specs.IsRead as texts;
    ghost use Rattle.java_steps.specs.IsRead.{AreRead, unboxed};

    ghost Value = { texts.Queries };

    ghost view = { λ q. record { schema = q.schema.now; repeated = q.repeated.keys } };

    ghost invariant = { λ q. AreRead q.schema.now (unboxed q.known.entries) };
}

impl<'a> Queries<'a> {
    /// No texts were read.
    pub fn new(alloc: Global, schema: &'a Schema) -> Queries<'a>
        ensures { result ≡ unread schema.now }
    {
        Queries {
            alloc,
            schema,
            known: IndexMap::new(alloc),
            repeated: IndexSet::new(alloc),
        }
    }

    /// The schema.
    pub fn schema(&self) -> &Schema
        ensures { result.now ≡ self.now.schema }
    {
        self.schema
    }

    /// The query of a text that was read and has one, which is looked for by its number first.
    pub fn find(&self, number: usize, text: &Text) -> Option<&Query>
        ensures { IfSome result (λ q. IsRead self.now.schema text.now (query q.now)) }
    {
        match at_place(&self.known, number, text.as_slice()) {
            Some(q) => Some(q),
            None => None,
        }
    }

    fn keep(&mut self, text: &'a Text, q: Box<Query>) -> Result<usize, NoMemory>
        requires { IsRead self.old.schema text.now (query q.value) }
        ensures { self.new ≡ self.old }
    {
        match self.known.insert_full(text.as_slice(), q) {
            Ok((number, _)) => Ok(number),
            Err(_) => Err(NoMemory),
        }
    }

    // Notes that a query is repeated, or nothing.
    fn note(&mut self, number: usize, is_repeated: bool) -> Result<(), NoMemory>
        ensures schema { self.new.schema ≡ self.old.schema }
        ensures repeated { OnOk result (self.new.repeated ≡ marked is_repeated self.old.repeated number) }
    {
        if is_repeated {
            self.repeated.insert(number)?;
        }
        Ok(())
    }

    // The number of a text that was read and has a query.
    fn number_of(&self, text: &Text) -> Option<usize>
        ensures { IfSome result (λ number. is_some (read_by self.now.schema text.now) ≡ true) }
    {
        self.known.get_index_of(text.as_slice())
    }

    /// Reads a text, where it wasn't read before or has no query, and gives its number, which means
    /// nothing where it has none. The query is repeated where it is so at one place at least.
    #[tactic(auto, using(crate::proofs::Readings::marked_known, crate::proofs::Readings::marked_read, crate::proofs::Readings::unmarked))]
    pub fn read(&mut self, text: &'a Text, is_repeated: bool) -> Result<usize, NoMemory>
        ensures schema { self.new.schema ≡ self.old.schema }
        ensures repeated { IfOk result (λ number. self.new.repeated ≡ marked (is_repeated && is_some (read_by self.old.schema text.now)) self.old.repeated number) }
    {
        if let Some(number) = self.number_of(text) {
            self.note(number, is_repeated)?;
            return Ok(number);
        }
        match read_query(self.alloc, self.schema, text)? {
            Some(q) => {
                let number = self.keep(text, q)?;
                self.note(number, is_repeated)?;
                Ok(number)
            }
            None => Ok(0),
        }
    }

    /// Whether the query with this number may be asked many times.
    pub fn is_repeated(&self, number: usize) -> bool
        ensures { result ≡ list_any (nat_eq number) self.now.repeated }
    {
        self.repeated.contains(&number)
    }

    // The same tables, with lookups for the query with this number where it is repeated.
    fn add_lookups<'b>(&self, tables: Tables<'b>, number: usize) -> Result<Tables<'b>, NoMemory>
        ensures { IfOk result (λ t. t ≡ tables.entry) }
    {
        if !self.is_repeated(number) {
            return Ok(tables);
        }
        match self.known.get_index(number) {
            Some((_, q)) => tables.with_lookups_for(q),
            None => Ok(tables),
        }
    }

    /// The tables of a database, with lookups for the queries that are repeated.
    pub fn tables<'b>(&self, db: &'b Db) -> Result<Tables<'b>, NoMemory>
        ensures { IfOk result (λ t. t ≡ db.now) }
    {
        let mut tables = Tables::new(self.alloc, db);
        for number in 0..self.known.len() {
            tables = self.add_lookups(tables, number)?;
        }
        Ok(tables)
    }
}
