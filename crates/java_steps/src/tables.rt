// A database's tables, and lookups of them for queries that are asked many times.
ghost use Rattle.std.specs.Prelude.{◌≡◌, IfOk};
ghost use Rattle.std.specs.Option.{option_copied};
ghost use Rattle.qbs_base.specs.Named.{at_name};
ghost use Rattle.sql_ast.specs.Meaning.{query_answer};
ghost use Rattle.sql_ast.specs.Reading.{query};
ghost use Rattle.sql_exec.specs.Answered.{IsAnswerable, answered};

use qbs_base::{Db, Name, NoMemory, Rows, Scalars};
use sql_ast::Query;
use sql_exec::{Answer, add_lookups, answer_by, answer_indexed};
use sql_rows::Lookup;
use std::alloc::Global;
use std::marker::Model;

/// A database's tables with lookups of them, as which contracts see the database alone: lookups
/// change no answer.
#[derive(Drop)]
pub struct Tables<'a> {
    alloc: Global,
    db: &'a Db,
    lookups: Vec<Lookup<'a>>,
}

impl<'a> Model for Tables<'a> {
    ghost use Rattle.qbs_base.specs.Values as values;
    ghost use Rattle.sql_rows.specs.Lookups.{AreLookups};

    ghost Value = { values.Database };

    ghost view = { λ t. t.db.now };

    ghost invariant = { λ t. AreLookups t.db.now t.lookups.items };
}

impl<'a> Tables<'a> {
    /// No lookups were made.
    pub fn new(alloc: Global, db: &'a Db) -> Tables<'a>
        ensures { result ≡ db.now }
    {
        Tables {
            alloc,
            db,
            lookups: Vec::new(alloc),
        }
    }

    /// The same tables, with lookups for a query too.
    pub fn with_lookups_for(self, q: &Query) -> Result<Tables<'a>, NoMemory>
        ensures { IfOk result (λ t. t ≡ self.entry) }
    {
        let Tables {
            alloc,
            db,
            mut lookups,
        } = self;
        add_lookups(alloc, q, db, &mut lookups)?;
        Ok(Tables { alloc, db, lookups })
    }

    /// The rows of a table by its name.
    pub fn table(&self, name: &Name) -> Option<&'a Rows>
        ensures { option_copied result ≡ at_name self.now name.now }
    {
        self.db.table(name)
    }

    /// The answer of a query. One that is asked many times is answered by the lookups that were made,
    /// and another by lookups of its own.
    pub fn answer(&self, q: &Query, params: &Scalars, is_repeated: bool) -> Result<Answer, NoMemory>
        requires { IsAnswerable (query q.now) }
        ensures { IfOk result (λ a. answered a ≡ query_answer self.now params.now (query q.now)) }
    {
        if is_repeated {
            return answer_by(self.alloc, q, self.db, params, self.lookups.as_slice());
        }
        answer_indexed(self.alloc, q, self.db, params)
    }
}
