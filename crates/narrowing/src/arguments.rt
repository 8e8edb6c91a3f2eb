// The arguments that plain parts read.
ghost use Rattle.std.specs.Prelude.{◌≡◌, ◌≤◌, [], OnOk, IfOk, take, length, nat_lt, if◌then◌else◌};
ghost use Rattle.std.specs.List.{list_any};
ghost use Rattle.java_ast.specs.Reading.{expression};
ghost use Rattle.java_mean.specs.Visible.{names_seen};
ghost use Rattle.narrowing.specs.Lent.{expressions_lent};
ghost use Rattle.spreads.specs.Narrowed as specs;

use crate::plain::{is_column, is_plain};
use java_ast::{Expr, ExprNode, Op};
use java_mean::Scope;
use qbs_base::{Name, NoMemory};
use std::alloc::Global;

/// Arguments in the order of their first mention, each once: ten at most, where ten stand for more than a query has.
#[derive(Drop)]
pub struct Arguments<'a> {
    pub items: Vec<&'a Expr>,
    ghost within: { length items.items ≤ 10 },
}

/// Whether two expressions are one variable, or one field of one variable.
fn same_argument(a: &Expr, b: &Expr) -> bool
    ensures { result ≡ specs.same_argument (expression a.now) (expression b.now) }
{
    match (&a.node, &b.node) {
        (ExprNode::Var(x), ExprNode::Var(y)) => *x == *y,
        (ExprNode::Field(row, f), ExprNode::Field(other, g)) => match (&row.node, &other.node) {
            (ExprNode::Var(x), ExprNode::Var(y)) => *x == *y && *f == *g,
            _ => false,
        },
        _ => false,
    }
}

/// The number of an argument, counted from 1.
#[tactic(auto, using(crate::proofs::Numbers::numbers))]
pub fn number_of(args: &[&Expr], e: &Expr) -> Option<u32>
    requires { length args.now ≤ 10 }
    ensures { result ≡ specs.number_of (expression e.now) (expressions_lent args.now) }
{
    let mut number = 0;
    for a in args {
        number += 1;
        if same_argument(e, a) {
            return Some(number);
        }
    }
    None
}

impl<'a> Arguments<'a> {
    /// No arguments.
    pub fn new(alloc: Global) -> Arguments<'a>
        ensures { result.items.items ≡ [] }
    {
        Arguments {
            items: Vec::new(alloc),
        }
    }

    fn has(&self, e: &Expr) -> bool
        ensures { result ≡ list_any (specs.same_argument (expression e.now)) (expressions_lent self.now.items.items) }
    {
        for a in &self.items {
            if same_argument(e, a) {
                return true;
            }
        }
        false
    }

    #[tactic(auto, using(crate::proofs::Firsts::put_full, crate::proofs::Firsts::put_there, crate::proofs::Firsts::put_one, crate::proofs::Items::lent_more, crate::proofs::Items::lent_len))]
    fn put(&mut self, e: &'a Expr) -> Result<(), NoMemory>
        ensures { OnOk result (expressions_lent self.new.items.items ≡ take 10 (specs.with_argument (expressions_lent self.old.items.items) (expression e.now))) }
    {
        if self.items.len() >= 10 {
            return Ok(());
        }
        if self.has(e) {
            return Ok(());
        }
        self.items.push(e)?;
        Ok(())
    }

    fn put_operand(&mut self, x: &Name, e: &'a Expr) -> Result<(), NoMemory>
        ensures { OnOk result (expressions_lent self.new.items.items ≡ take 10 (specs.with_operand x.now (expressions_lent self.old.items.items) (expression e.now))) }
    {
        match &e.node {
            ExprNode::Lit(_) => Ok(()),
            _ => {
                if is_column(x, e) {
                    return Ok(());
                }
                self.put(e)
            }
        }
    }

    fn put_operands(&mut self, x: &Name, a: &'a Expr, b: &'a Expr) -> Result<(), NoMemory>
        ensures { OnOk result (expressions_lent self.new.items.items ≡ take 10 (specs.with_operand x.now (specs.with_operand x.now (expressions_lent self.old.items.items) (expression a.now)) (expression b.now))) }
    {
        self.put_operand(x, a)?;
        self.put_operand(x, b)
    }

    fn put_part(&mut self, x: &Name, e: &'a Expr) -> Result<(), NoMemory>
        ensures { OnOk result (expressions_lent self.new.items.items ≡ take 10 (specs.with_part x.now (expressions_lent self.old.items.items) (expression e.now))) }
    {
        match &e.node {
            ExprNode::Binary(op, a, b) => match op {
                Op::And | Op::Or => {
                    self.put_part(x, a)?;
                    self.put_part(x, b)
                }
                _ => self.put_operands(x, a, b),
            },
            ExprNode::Not(a) => self.put_part(x, a),
            ExprNode::Equals(a, b) => self.put_operands(x, a, b),
            ExprNode::Lit(_)
            | ExprNode::Var(_)
            | ExprNode::Field(_, _)
            | ExprNode::Size(_)
            | ExprNode::Get(_, _)
            | ExprNode::Contains(_, _)
            | ExprNode::Fetch(_)
            | ExprNode::Query(_, _, _)
            | ExprNode::QueryLong(_, _)
            | ExprNode::QueryBoolean(_, _)
            | ExprNode::NewList
            | ExprNode::NewSet(_) => Ok(()),
        }
    }

    /// Puts the arguments of a part behind these where there are nine at most then, and says whether so.
    fn take_part(&mut self, x: &Name, e: &'a Expr) -> Result<bool, NoMemory>
        ensures fits { IfOk result (λ b. b ≡ nat_lt (length (specs.with_part x.now (expressions_lent self.old.items.items) (expression e.now))) 10) }
        ensures arguments { IfOk result (λ b. expressions_lent self.new.items.items ≡ (if b then specs.with_part x.now (expressions_lent self.old.items.items) (expression e.now) else expressions_lent self.old.items.items)) }
    {
        let len = self.items.len();
        self.put_part(x, e)?;
        if self.items.len() < 10 {
            return Ok(true);
        }
        self.items.truncate(len);
        Ok(false)
    }

    /// Puts the arguments of a part behind these where the part is plain and there are nine at most then, and says whether so.
    pub fn take(&mut self, assigned: &Scope, x: &Name, e: &'a Expr) -> Result<bool, NoMemory>
        ensures taken { IfOk result (λ b. b ≡ specs.is_taken (names_seen assigned.now) x.now (expressions_lent self.old.items.items) (expression e.now)) }
        ensures arguments { IfOk result (λ b.
            expressions_lent self.new.items.items
            ≡ (if b then specs.with_part x.now (expressions_lent self.old.items.items) (expression e.now) else expressions_lent self.old.items.items)) }
    {
        if !is_plain(assigned, x, e) {
            return Ok(false);
        }
        self.take_part(x, e)
    }
}
