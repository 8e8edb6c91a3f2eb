//! Texts of queries with their answers. They do nothing.
ghost use Rattle.sql_ast.specs.Worked.{Worked};

/// Texts on two small tables have these answers, and others break these rules.
pub fn worked_texts_have_their_answers()
    ensures { Worked }
{}
