// The parts of a condition that a query tests, with their arguments.
ghost use Rattle.std.specs.Prelude.{◌≡◌, ◌∷◌, ◌++◌, [], OnOk, IfOk};
ghost use Rattle.java_ast.specs.Reading.{expression};
ghost use Rattle.java_mean.specs.Visible.{names_seen};
ghost use Rattle.narrowing.specs.Lent.{expressions_lent};
ghost use Rattle.spreads.specs.Narrowed as specs;

use crate::arguments::Arguments;
use java_ast::{Expr, ExprNode, Op};
use java_mean::Scope;
use qbs_base::{Name, NoMemory};
use std::alloc::Global;

/// The parts that are taken, and the arguments that they read.
#[derive(Drop)]
pub struct Taken<'a> {
    pub parts: Vec<&'a Expr>,
    pub arguments: Arguments<'a>,
}

impl<'a> Taken<'a> {
    fn new(alloc: Global) -> Taken<'a>
        ensures parts { result.parts.items ≡ [] }
        ensures arguments { result.arguments.items.items ≡ [] }
    {
        Taken {
            parts: Vec::new(alloc),
            arguments: Arguments::new(alloc),
        }
    }

    #[tactic(auto, using(crate::proofs::Parts::one_not_taken, crate::proofs::Parts::none_read, crate::proofs::Parts::one_taken, crate::proofs::Parts::one_read, crate::proofs::Items::lent_more))]
    /// Puts a part behind the others where it is plain and there are nine arguments at most with it.
    fn put_part(&mut self, assigned: &Scope, x: &Name, e: &'a Expr) -> Result<(), NoMemory>
        ensures parts { OnOk result (
            expressions_lent self.new.parts.items
            ≡ expressions_lent self.old.parts.items ++ specs.taken (names_seen assigned.now) x.now (expressions_lent self.old.arguments.items.items) (expression e.now ∷ [])) }
        ensures arguments { OnOk result (
            expressions_lent self.new.arguments.items.items
            ≡ specs.all_read x.now (expressions_lent self.old.arguments.items.items) (specs.taken (names_seen assigned.now) x.now (expressions_lent self.old.arguments.items.items) (expression e.now ∷ []))) }
    {
        if !self.arguments.take(assigned, x, e)? {
            return Ok(());
        }
        self.parts.push(e)?;
        Ok(())
    }

    /// Puts those parts of the outermost `&&` behind the others that are taken.
    fn put_parts(&mut self, assigned: &Scope, x: &Name, e: &'a Expr) -> Result<(), NoMemory>
        ensures parts { OnOk result (
            expressions_lent self.new.parts.items
            ≡ expressions_lent self.old.parts.items ++ specs.taken (names_seen assigned.now) x.now (expressions_lent self.old.arguments.items.items) (specs.parts_of (expression e.now))) }
        ensures arguments { OnOk result (
            expressions_lent self.new.arguments.items.items
            ≡ specs.all_read x.now (expressions_lent self.old.arguments.items.items)
            (specs.taken (names_seen assigned.now) x.now (expressions_lent self.old.arguments.items.items) (specs.parts_of (expression e.now)))) }
    {
        match &e.node {
            ExprNode::Binary(op, a, b) => match op {
                Op::And => {
                    self.put_parts(assigned, x, a)?;
                    self.put_parts(assigned, x, b)
                }
                _ => self.put_part(assigned, x, e),
            },
            _ => self.put_part(assigned, x, e),
        }
    }
}

/// The parts of a condition that are taken, where these variables are assigned, and their arguments. Its only error is want of memory.
pub fn parts_taken<'a>(
    alloc: Global,
    assigned: &Scope,
    x: &Name,
    e: &'a Expr,
) -> Result<Taken<'a>, NoMemory>
    ensures parts { IfOk result (λ t. expressions_lent t.parts.items ≡ specs.taken (names_seen assigned.now) x.now [] (specs.parts_of (expression e.now))) }
    ensures arguments { IfOk result (λ t.
        expressions_lent t.arguments.items.items ≡ specs.all_read x.now [] (specs.taken (names_seen assigned.now) x.now [] (specs.parts_of (expression e.now)))) }
{
    let mut all = Taken::new(alloc);
    all.put_parts(assigned, x, e)?;
    Ok(all)
}
