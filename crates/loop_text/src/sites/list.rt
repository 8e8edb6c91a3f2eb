//! The statements of a loop in text order, each with what stands round it.
ghost use Rattle.std.specs.Prelude.{◌≡◌, ◌++◌, ◌∷◌, [], OnOk, IfOk, map, length, Option, option_copied};
ghost use Rattle.std.specs.Option.{option_map};
ghost use Rattle.java_ast.specs.Reading.{expression, statement, statements};
ghost use Rattle.loop_text.specs.Sites.Bound.{bindings_of};
ghost use Rattle.loop_text.specs.Sites.Indexed.{passing, ends, updates_under};
ghost use Rattle.loop_text.specs.Kernel.KernelConditions.{updates_flag_under};
ghost use Rattle.loop_text.specs.Kernel.KernelStarts.{updates_name};
ghost use Rattle.loop_text.specs.Kernel.KernelStatements.{updates_local};
ghost use Rattle.loop_text.specs.Sites.Reading.{test_of, round_of, site_of};
ghost use Rattle.loop_text.specs.Sites.Sites as specs;

use crate::sites::bindings::Binding;
use crate::sites::groups::{ByName, ByNumber, NumberSet};
use crate::sites::marks::{binders_of, breaks_of, flags_of, guards_of, unders_of, updates_of};
use java_ast::{Expr, Stmt, StmtNode};
use qbs_base::{Items, Name, NoMemory, Span};
use std::alloc::Global;
use std::marker::Model;

/// An `if` round a place: its number among the sites, how many loops stand round it, its condition,
/// and whether the place is in the branch where that holds.
#[derive(Clone, Copy)]
pub struct Test<'a> {
    pub number: usize,
    pub level: usize,
    pub condition: &'a Expr,
    pub holds: bool,
}

/// What stands round a place: the loops by their numbers among the sites, and the `if`s, the
/// outermost first.
#[derive(Drop)]
pub struct Round<'a> {
    pub loops: Items<usize>,
    pub tests: Items<Test<'a>>,
}

/// A statement in a loop, what stands round it, and the statement before it in its block.
#[derive(Drop)]
pub struct Site<'a> {
    pub statement: &'a Stmt,
    pub round: Round<'a>,
    pub previous: Option<&'a Stmt>,
}

/// The statements of a loop in text order, as which contracts see them, with what is found of them at once: what they
/// bind names to, the updates of each name and each flag, the `break`s of each loop, the updates under each `if`, and
/// the `if`s round a flag's update.
#[derive(Drop)]
pub struct Sites<'a> {
    list: Items<Site<'a>>,
    binders: ByName<'a, Binding>,
    updates: ByName<'a, usize>,
    flags: ByNumber,
    breaks: ByNumber,
    unders: ByNumber,
    guards: NumberSet,
}

impl<'a> Model for Sites<'a> {
    ghost use Rattle.std.specs.Prelude.{List, map};
    ghost use Rattle.loop_text.specs.declared.sites.list.Site.{Site};
    ghost use Rattle.std.specs.Coded.{codes};
    ghost use Rattle.java_ast.specs.contracts.tree.StmtNode as statements;
    ghost use Rattle.java_ast.specs.contracts.tree.ExprNode as expressions;

    ghost Value = { List Site };

    ghost coded = { Prim.hlevel (codes, statements.the_row.coded, expressions.the_row.coded) };

    ghost use Rattle.loop_text.specs.Sites.Indexed.{IsIndex};
    ghost use Rattle.loop_text.specs.Sites.Reading.{site_of};

    ghost view = { λ s. s.list };

    ghost invariant = { λ s. IsIndex s.binders s.updates s.flags s.breaks s.unders s.guards (map site_of s.list) };
}

impl<'a> Sites<'a> {
    fn new(alloc: Global, list: Items<Site<'a>>) -> Result<Sites<'a>, NoMemory>
        ensures { IfOk result (λ s. s ≡ list.entry) }
    {
        let all = list.as_slice();
        let binders = binders_of(alloc, all)?;
        let updates = updates_of(alloc, all)?;
        let flags = flags_of(alloc, all, &binders)?;
        let breaks = breaks_of(alloc, all)?;
        let unders = unders_of(alloc, all)?;
        let guards = guards_of(alloc, all, &binders)?;
        Ok(Sites {
            list,
            binders,
            updates,
            flags,
            breaks,
            unders,
            guards,
        })
    }

    /// The sites, lent in order.
    pub fn as_slice(&self) -> &[Site<'a>]
        ensures { result.now ≡ self.now }
    {
        self.list.as_slice()
    }

    /// What the sites bind a name to, in their order. Like the other look-ups it takes one hash.
    pub fn bindings(&self, name: &Name) -> &[Binding]
        ensures { result.now ≡ bindings_of name.now 0 (map site_of self.now) }
    {
        self.binders.of(name)
    }

    /// The sites that update a name.
    pub fn updates(&self, name: &Name) -> &[usize]
        ensures { result.now ≡ passing (updates_name name.now) 0 (map site_of self.now) }
    {
        self.updates.of(name)
    }

    /// The sites that update the local variable that is declared at this number.
    pub fn flag_updates(&self, d: usize) -> &[usize]
        ensures { result.now ≡ passing (updates_local (map site_of self.now) d) 0 (map site_of self.now) }
    {
        self.flags.of(d)
    }

    /// The `break`s of a loop.
    pub fn breaks(&self, number: usize) -> &[usize]
        ensures { result.now ≡ passing (ends number) 0 (map site_of self.now) }
    {
        self.breaks.of(number)
    }

    /// The updates in a branch of this `if`, or further down in one.
    pub fn updates_under(&self, number: usize) -> &[usize]
        ensures { result.now ≡ passing (updates_under number) 0 (map site_of self.now) }
    {
        self.unders.of(number)
    }

    /// Whether the update of a local variable stands in a branch of this `if`.
    pub fn is_round_flag(&self, number: usize) -> bool
        ensures { result ≡ specs.any_site (updates_flag_under (map site_of self.now) number) 0 (map site_of self.now) }
    {
        self.guards.has(number)
    }
}

fn copy_round<'a>(alloc: Global, r: &Round<'a>) -> Result<Round<'a>, NoMemory>
    ensures { IfOk result (λ c. round_of c ≡ round_of r.now) }
{
    Ok(Round {
        loops: Items::from_vec(r.loops.as_slice().to_vec(alloc)?),
        tests: Items::from_vec(r.tests.as_slice().to_vec(alloc)?),
    })
}

fn in_loop<'a>(alloc: Global, r: &Round<'a>, number: usize) -> Result<Round<'a>, NoMemory>
    ensures { IfOk result (λ c. round_of c ≡ specs.in_loop (round_of r.now) number) }
{
    let mut inner = copy_round(alloc, r)?;
    inner.loops.push(number)?;
    Ok(inner)
}

fn in_branch<'a>(
    alloc: Global,
    r: &Round<'a>,
    number: usize,
    condition: &'a Expr,
    holds: bool,
) -> Result<Round<'a>, NoMemory>
    ensures { IfOk result (λ c. round_of c ≡ specs.in_branch (round_of r.now) number (expression condition.now) holds) }
{
    let mut inner = copy_round(alloc, r)?;
    inner.tests.push(Test {
        number,
        level: r.loops.len(),
        condition,
        holds,
    })?;
    Ok(inner)
}

fn push_site<'a>(
    alloc: Global,
    r: &Round<'a>,
    previous: Option<&'a Stmt>,
    s: &'a Stmt,
    met: &mut Items<Site<'a>>,
) -> Result<(), NoMemory>
    ensures { OnOk result (
        map site_of met.new
        ≡ specs.with_site (map site_of met.old) (round_of r.now) (option_map (λ p. statement p.now) previous.entry) (statement s.now)) }
{
    let round = copy_round(alloc, r)?;
    met.push(Site {
        statement: s,
        round,
        previous,
    })
}

#[cycle(walk)]
#[tactic(auto, using(java_ast::proofs::Nodes::nodes))]
fn walk<'a>(
    alloc: Global,
    r: &Round<'a>,
    previous: Option<&'a Stmt>,
    s: &'a Stmt,
    met: &mut Items<Site<'a>>,
) -> Result<(), NoMemory>
    ensures { OnOk result (map site_of met.new ≡ specs.walk (round_of r.now) (option_map (λ p. statement p.now) previous.entry) (statement s.now) (map site_of met.old)) }
{
    let number = met.len();
    push_site(alloc, r, previous, s, met)?;
    match &s.node {
        StmtNode::If { cond, yes, other } => {
            let holding = in_branch(alloc, r, number, cond, true)?;
            match other {
                None => walk_all(alloc, &holding, yes, met),
                Some(other) => {
                    walk_all(alloc, &holding, yes, met)?;
                    let failing = in_branch(alloc, r, number, cond, false)?;
                    walk_all(alloc, &failing, other, met)
                }
            }
        }
        StmtNode::ForEach {
            ty: _,
            name: _,
            list: _,
            body,
        } => {
            let inner = in_loop(alloc, r, number)?;
            walk_all(alloc, &inner, body, met)
        }
        StmtNode::While { cond: _, body } => {
            let inner = in_loop(alloc, r, number)?;
            walk_all(alloc, &inner, body, met)
        }
        StmtNode::Declare { .. }
        | StmtNode::Assign { .. }
        | StmtNode::Add { .. }
        | StmtNode::Sort { .. }
        | StmtNode::Print { .. }
        | StmtNode::Return { .. }
        | StmtNode::Break => Ok(()),
    }
}

#[cycle(walk)]
fn walk_all<'a>(
    alloc: Global,
    r: &Round<'a>,
    block: &'a [Stmt],
    met: &mut Items<Site<'a>>,
) -> Result<(), NoMemory>
    ensures { OnOk result (map site_of met.new ≡ specs.walk_all (round_of r.now) None (statements block.now) (map site_of met.old)) }
{
    let mut previous = None;
    for s in block {
        walk(alloc, r, previous, s, met)?;
        previous = Some(s);
    }
    Ok(())
}

/// The sites of a loop with this body, itself the first.
pub fn sites_of<'a>(
    alloc: Global,
    looped: &'a Stmt,
    body: &'a [Stmt],
) -> Result<Sites<'a>, NoMemory>
    requires { statements body.now ≡ specs.kernel_body (statement looped.now) }
    ensures { IfOk result (λ s. map site_of s ≡ specs.sites_of (statement looped.now)) }
{
    let outside = Round {
        loops: Items::new(alloc),
        tests: Items::new(alloc),
    };
    let mut met = Items::new(alloc);
    push_site(alloc, &outside, None, looped, &mut met)?;
    let inner = in_loop(alloc, &outside, 0)?;
    walk_all(alloc, &inner, body, &mut met)?;
    Sites::new(alloc, met)
}

/// A place, where something holds.
pub fn place_where(holds: bool, at: Span) -> Option<Span>
    ensures { result ≡ specs.place_where holds at }
{
    if holds { Some(at) } else { None }
}
