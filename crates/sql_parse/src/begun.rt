// What is read without a condition inside it, with names that stand among the tokens.
use crate::token::Token;
use qbs_base::{Name, Text};
use sql_ast::Cmp;

/// A column, with or without an alias.
#[derive(Drop)]
pub struct ReadCol<'t> {
    pub alias: Option<&'t Name>,
    pub name: &'t Name,
}

/// A table in FROM, with or without an alias.
#[derive(Drop)]
pub struct ReadPart<'t> {
    pub table: &'t Name,
    pub alias: Option<&'t Name>,
}

#[derive(Drop)]
pub enum ReadOpnd<'t> {
    Column(ReadCol<'t>),
    Truth(bool),
    Long(i64),
    Text(&'t Text),
    Param(u32),
}

/// What a condition begins with that is no AND, OR or NOT of others, and the tokens behind it.
#[derive(Drop)]
pub enum Begun<'t> {
    /// An open parenthesis.
    Group(&'t [Token]),
    /// EXISTS and `(SELECT 1`.
    Exists(&'t [Token]),
    /// An operand, IN or NOT IN, and `(SELECT COLUMN`.
    Within(ReadOpnd<'t>, bool, ReadCol<'t>, &'t [Token]),
    /// All of a comparison.
    Compared(Cmp, ReadOpnd<'t>, ReadOpnd<'t>, &'t [Token]),
    /// A column that is all of the condition.
    Bare(ReadCol<'t>, &'t [Token]),
}
