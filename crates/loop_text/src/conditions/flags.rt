//! Flags that conditions read, and what runs set of what expressions mention.
ghost use Rattle.std.specs.Prelude.{◌≡◌, ◌&&◌, nat_lt, option_copied, map, slice_get};
ghost use Rattle.std.specs.Option.{option_map};
ghost use Rattle.java_ast.specs.Reading.{expression, expressions, statement, statements};
ghost use Rattle.loop_text.specs.Kernel.KernelConditions as specs;
ghost use Rattle.loop_text.specs.Kernel.KernelStatements as updates;
ghost use Rattle.java_ast.specs.Names.{names_among};
ghost use Rattle.loop_text.specs.Statements.Setting.{is_found};
ghost use Rattle.loop_text.specs.Sites.Reading.{site_of};
ghost use Rattle.loop_text.specs.Sites.Sites as sites;
ghost use Rattle.tor_terms.specs.Same as same;

use crate::sites::bindings::Binding;
use crate::sites::list::Sites;
use crate::statements::names::some_mentions;
use crate::updates::targets::some_below;
use java_ast::{Expr, Stmt, StmtNode};

// ---- Flags

fn same_loops(a: &[usize], b: &[usize]) -> bool
    ensures { result ≡ same.same_numbers a.now b.now }
{
    match (a.split_first(), b.split_first()) {
        (None, None) => true,
        (Some((x, rest)), Some((y, others))) => *x == *y && same_loops(rest, others),
        _ => false,
    }
}

fn is_updated_before(all: &Sites, n: usize, d: usize) -> bool
    ensures { result ≡ sites.any_site (λ i s. nat_lt i n && updates.updates_local (map site_of all.now) d i s) 0 (map site_of all.now) }
{
    some_below(all.flag_updates(d), n)
}

#[tactic(auto, using(crate::proofs::Trees::Rounds::rounds))]
fn is_in_its_loops(all: &Sites, n: usize, d: usize) -> bool
    ensures { result ≡ specs.is_in_its_loops (map site_of all.now) n (slice_get (map site_of all.now) n) (slice_get (map site_of all.now) d) }
{
    match all.as_slice().get(n) {
        None => false,
        Some(s) => match all.as_slice().get(d) {
            None => false,
            Some(d) => same_loops(s.round.loops.as_slice(), d.round.loops.as_slice()),
        },
    }
}

fn may_read(all: &Sites, n: usize, d: usize) -> bool
    ensures { result ≡ specs.may_read (map site_of all.now) n d }
{
    is_updated_before(all, n, d) && (is_in_its_loops(all, n, d) && !all.is_round_flag(n))
}

/// Whether a condition at a place may read what a name is bound to there: a flag that is updated before and in its loops.
pub fn reads_flag(all: &Sites, n: usize, b: Binding) -> bool
    ensures { result ≡ specs.reads_flag (map site_of all.now) n b }
{
    match b {
        Binding::Local(d) => may_read(all, n, d),
        _ => false,
    }
}

// ---- Known lists

fn sets_one(es: &[Expr], s: &Stmt) -> bool
    ensures { result ≡ specs.sets_one (names_among (expressions es.now)) (statement s.now) }
{
    match &s.node {
        StmtNode::Declare {
            ty: _,
            name,
            value: _,
        } => some_mentions(es, name),
        StmtNode::Assign { name, value: _ } => some_mentions(es, name),
        StmtNode::Sort {
            name,
            keys: _,
            down: _,
        } => some_mentions(es, name),
        _ => false,
    }
}

/// Whether some statement of a run sets a variable that some expressions mention.
pub fn sets_some(es: &[Expr], run: &[Stmt]) -> bool
    ensures { result ≡ specs.sets_some (names_among (expressions es.now)) (statements run.now) }
{
    for s in run {
        if sets_one(es, s) {
            return true;
        }
    }
    false
}

/// Whether there is a statement.
pub fn is_some(s: Option<&Stmt>) -> bool
    ensures { result ≡ is_found (option_map statement (option_copied s.entry)) }
{
    match s {
        None => false,
        Some(_) => true,
    }
}

/// The condition of an `if`.
pub fn condition_of(s: &Stmt) -> Option<&Expr>
    ensures { option_map expression (option_copied result) ≡ specs.condition_of (statement s.now) }
{
    match &s.node {
        StmtNode::If {
            cond,
            yes: _,
            other: _,
        } => Some(cond),
        _ => None,
    }
}
