//! Loops that count.
ghost use Rattle.std.specs.Prelude.{◌≡◌, option_copied, map};
ghost use Rattle.std.specs.List.{list_any};
ghost use Rattle.std.specs.Option.{option_map};
ghost use Rattle.java_ast.specs.Reading.{spelled, expression, statement, statements};
ghost use Rattle.loop_text.specs.Kernel.Counting as bounds;
ghost use Rattle.loop_text.specs.Kernel.KernelLoop as specs;
ghost use Rattle.loop_text.specs.Sites.Reading.{counting_in_code, cap_in_code, site_of};
ghost use Rattle.loop_text.specs.Statements.Setting as setting;
ghost use Rattle.loop_text.specs.Sites.Sites as sites;

use crate::sites::list::{Site, Sites};
use crate::statements::names::{block_mentions, same_name};
use crate::statements::runs::{first_touching, given_by, touched_again};
use java_ast::{Expr, ExprNode, JTy, Op, Stmt, StmtNode};
use qbs_base::{Name, Scalar};

/// What a loop counts: its counter, the list whose size it counts to, and a limit where there is one.
#[derive(Clone, Copy)]
pub struct Counting<'a> {
    pub counter: &'a Name,
    pub list: &'a Name,
    pub limit: Option<u64>,
}

// `i < c`.
#[derive(Clone, Copy)]
struct Cap<'a> {
    counter: &'a Name,
    most: u64,
}

/// Whether an operator is `<`.
pub fn is_less(op: Op) -> bool
    ensures { result ≡ bounds.is_less op }
{
    match op {
        Op::Lt => true,
        _ => false,
    }
}

/// Whether an operator is `&&`.
pub fn is_and(op: Op) -> bool
    ensures { result ≡ bounds.is_and op }
{
    match op {
        Op::And => true,
        _ => false,
    }
}

/// Whether an operator is the sum.
pub fn is_add(op: Op) -> bool
    ensures { result ≡ setting.is_add op }
{
    match op {
        Op::Add => true,
        _ => false,
    }
}

fn counting_of<'a>(i: &'a Name, e: &'a Expr) -> Option<Counting<'a>>
    ensures { option_map counting_in_code result ≡ bounds.counting_of i.now (expression e.now) }
{
    match &e.node {
        ExprNode::Size(xs) => Some(Counting {
            counter: i,
            list: xs,
            limit: None,
        }),
        _ => None,
    }
}

fn counted_below<'a>(a: &'a Expr, b: &'a Expr) -> Option<Counting<'a>>
    ensures { option_map counting_in_code result ≡ bounds.counted_below (expression a.now) (expression b.now) }
{
    match &a.node {
        ExprNode::Var(i) => counting_of(i, b),
        _ => None,
    }
}

fn counted<'a>(e: &'a Expr) -> Option<Counting<'a>>
    ensures { option_map counting_in_code result ≡ bounds.counted (expression e.now) }
{
    match &e.node {
        ExprNode::Binary(op, a, b) => {
            if is_less(*op) {
                counted_below(a, b)
            } else {
                None
            }
        }
        _ => None,
    }
}

fn cap_of_number<'a>(i: &'a Name, value: &Scalar) -> Option<Cap<'a>>
    ensures { option_map cap_in_code result ≡ bounds.cap_of_number i.now value.now }
{
    match value {
        Scalar::Long(c) => match u64::try_from(*c) {
            Ok(most) => Some(Cap { counter: i, most }),
            Err(_) => None,
        },
        _ => None,
    }
}

fn cap_of<'a>(i: &'a Name, e: &'a Expr) -> Option<Cap<'a>>
    ensures { option_map cap_in_code result ≡ bounds.cap_of i.now (expression e.now) }
{
    match &e.node {
        ExprNode::Lit(value) => cap_of_number(i, value),
        _ => None,
    }
}

fn capped_below<'a>(a: &'a Expr, b: &'a Expr) -> Option<Cap<'a>>
    ensures { option_map cap_in_code result ≡ bounds.capped_below (expression a.now) (expression b.now) }
{
    match &a.node {
        ExprNode::Var(i) => cap_of(i, b),
        _ => None,
    }
}

fn capped<'a>(e: &'a Expr) -> Option<Cap<'a>>
    ensures { option_map cap_in_code result ≡ bounds.capped (expression e.now) }
{
    match &e.node {
        ExprNode::Binary(op, a, b) => {
            if is_less(*op) {
                capped_below(a, b)
            } else {
                None
            }
        }
        _ => None,
    }
}

fn both_bound<'a>(k: Option<Counting<'a>>, c: Option<Cap<'a>>) -> Option<Counting<'a>>
    ensures { option_map counting_in_code result ≡ bounds.both_bound (option_map counting_in_code k.entry) (option_map cap_in_code c.entry) }
{
    match (k, c) {
        (Some(k), Some(c)) => {
            if same_name(k.counter, c.counter) {
                Some(Counting {
                    counter: k.counter,
                    list: k.list,
                    limit: Some(c.most),
                })
            } else {
                None
            }
        }
        _ => None,
    }
}

fn either_counting<'a>(k: Option<Counting<'a>>, other: Option<Counting<'a>>) -> Option<Counting<'a>>
    ensures { option_map counting_in_code result ≡ bounds.either_counting (option_map counting_in_code k.entry) (option_map counting_in_code other.entry) }
{
    match k {
        Some(k) => Some(k),
        None => other,
    }
}

/// What a condition counts: `i < xs.size()`, or with `i < c` on either side of `&&`.
pub fn counting_by<'a>(e: &'a Expr) -> Option<Counting<'a>>
    ensures { option_map counting_in_code result ≡ bounds.counting (expression e.now) }
{
    match &e.node {
        ExprNode::Binary(op, a, b) => {
            if is_and(*op) {
                either_counting(
                    both_bound(counted(a), capped(b)),
                    both_bound(counted(b), capped(a)),
                )
            } else if is_less(*op) {
                counted_below(a, b)
            } else {
                None
            }
        }
        _ => None,
    }
}

fn is_table(ty: &JTy) -> bool
    ensures { result ≡ specs.is_table (spelled ty.now) }
{
    match ty {
        JTy::Table(_) => true,
        _ => false,
    }
}

/// Whether an expression is a name by itself.
pub fn is_variable(x: &Name, e: &Expr) -> bool
    ensures { result ≡ setting.is_variable x.now (expression e.now) }
{
    match &e.node {
        ExprNode::Var(y) => same_name(y, x),
        _ => false,
    }
}

fn is_one(value: &Scalar) -> bool
    ensures { result ≡ setting.is_number 1 value.now }
{
    match value {
        Scalar::Long(m) => *m == 1,
        _ => false,
    }
}

fn is_zero(value: &Scalar) -> bool
    ensures { result ≡ setting.is_number 0 value.now }
{
    match value {
        Scalar::Long(m) => *m == 0,
        _ => false,
    }
}

/// Whether an expression is the literal 0.
pub fn is_literal_zero(e: &Expr) -> bool
    ensures { result ≡ setting.is_literal_number 0 (expression e.now) }
{
    match &e.node {
        ExprNode::Lit(value) => is_zero(value),
        _ => false,
    }
}

/// Whether an expression is the literal 1.
pub fn is_literal_one(e: &Expr) -> bool
    ensures { result ≡ setting.is_literal_number 1 (expression e.now) }
{
    match &e.node {
        ExprNode::Lit(value) => is_one(value),
        _ => false,
    }
}

// Whether an expression is the sum of a variable and 1.
fn is_next_of(x: &Name, e: &Expr) -> bool
    ensures { result ≡ setting.is_next_of x.now (expression e.now) }
{
    match &e.node {
        ExprNode::Binary(op, a, b) => is_add(*op) && (is_variable(x, a) && is_literal_one(b)),
        _ => false,
    }
}

// `xs.get(i)`.
fn is_item(k: Counting, e: &Expr) -> bool
    ensures { result ≡ specs.is_item (counting_in_code k.entry) (expression e.now) }
{
    match &e.node {
        ExprNode::Get(xs, i) => same_name(xs, k.list) && is_variable(k.counter, i),
        _ => false,
    }
}

fn takes_row(k: Counting, s: &Stmt) -> bool
    ensures { result ≡ specs.takes_row (counting_in_code k.entry) (statement s.now) }
{
    match &s.node {
        StmtNode::Declare { ty, name: _, value } => is_table(ty) && is_item(k, value),
        _ => false,
    }
}

fn begins(k: Counting, body: &[Stmt]) -> bool
    ensures { result ≡ specs.begins (counting_in_code k.entry) (statements body.now) }
{
    match body.split_first() {
        None => false,
        Some((s, _)) => takes_row(k, s),
    }
}

fn goes_on(k: Counting, s: &Stmt) -> bool
    ensures { result ≡ specs.goes_on (counting_in_code k.entry) (statement s.now) }
{
    match &s.node {
        StmtNode::Assign { name, value } => {
            same_name(name, k.counter) && is_next_of(k.counter, value)
        }
        _ => false,
    }
}

#[tactic(auto, using(crate::proofs::Trees::Blocks::blocks))]
fn ends(k: Counting, body: &[Stmt]) -> bool
    ensures { result ≡ specs.ends (counting_in_code k.entry) (statements body.now) }
{
    match body.split_last() {
        None => false,
        Some((s, _)) => goes_on(k, s),
    }
}

fn without_first(body: &[Stmt]) -> &[Stmt]
    ensures { statements result.now ≡ sites.without_first (statements body.now) }
{
    match body.split_first() {
        None => &[],
        Some((_, rest)) => rest,
    }
}

#[tactic(auto, using(crate::proofs::Trees::Blocks::blocks))]
fn without_last(body: &[Stmt]) -> &[Stmt]
    ensures { statements result.now ≡ sites.without_last (statements body.now) }
{
    match body.split_last() {
        None => &[],
        Some((_, rest)) => rest,
    }
}

/// The body of a loop, of one that counts without the statements that take the row and go on.
#[tactic(auto, using(java_ast::proofs::Nodes::nodes))]
pub fn kernel_body(s: &Stmt) -> &[Stmt]
    ensures { statements result.now ≡ sites.kernel_body (statement s.now) }
{
    match &s.node {
        StmtNode::ForEach {
            ty: _,
            name: _,
            list: _,
            body,
        } => body,
        StmtNode::While { cond: _, body } => without_last(without_first(body)),
        _ => &[],
    }
}

/// The body begins and ends as that of a loop that counts, and mentions the counter nowhere else.
pub fn counts_in(k: Counting, body: &[Stmt]) -> bool
    ensures { result ≡ specs.counts_in (counting_in_code k.entry) (statements body.now) }
{
    let rest = without_first(body);
    begins(k, body) && (ends(k, rest) && !block_mentions(without_last(rest), k.counter))
}

fn gives_zero(e: Option<&Expr>) -> bool
    ensures { result ≡ specs.is_zero_given (option_map expression (option_copied e.entry)) }
{
    match e {
        None => false,
        Some(e) => is_literal_zero(e),
    }
}

fn sets_zero(i: &Name, s: Option<&Stmt>) -> bool
    ensures { result ≡ specs.sets_zero i.now (option_map statement (option_copied s.entry)) }
{
    match s {
        None => false,
        Some(s) => gives_zero(given_by(i, s)),
    }
}

/// One statement of the run mentions the counter, and gives it 0.
pub fn starts_at_zero(i: &Name, run: &[Stmt]) -> bool
    ensures { result ≡ specs.starts_at_zero i.now (statements run.now) }
{
    sets_zero(i, first_touching(i, run)) && !touched_again(i, run)
}

/// Whether a statement is a `while`.
#[tactic(auto, using(java_ast::proofs::Nodes::nodes))]
pub fn is_while(s: &Stmt) -> bool
    ensures { result ≡ specs.is_while (statement s.now) }
{
    match &s.node {
        StmtNode::While { .. } => true,
        _ => false,
    }
}

/// Whether some loop that counts stands inside of the first site.
#[tactic(auto, using(crate::proofs::Trees::Rounds::rounds))]
pub fn has_inner_while(all: &Sites) -> bool
    ensures { result ≡ specs.has_inner_while (map site_of all.now) }
{
    match all.as_slice().split_first() {
        None => false,
        Some((_, inner)) => has_while(inner),
    }
}

#[tactic(auto, using(crate::proofs::Trees::Rounds::rounds))]
fn has_while(all: &[Site]) -> bool
    ensures { result ≡ list_any (λ (s : sites.Site). specs.is_while s.statement) (map site_of all.now) }
{
    for s in all {
        if is_while(s.statement) {
            return true;
        }
    }
    false
}

/// What a loop counts, if it counts.
#[tactic(auto, using(java_ast::proofs::Nodes::nodes))]
pub fn counting_in(s: &Stmt) -> Option<Counting<'_>>
    ensures { option_map counting_in_code result ≡ specs.counting_in (statement s.now) }
{
    match &s.node {
        StmtNode::While { cond, body: _ } => counting_by(cond),
        _ => None,
    }
}

/// The limit of what is counted.
pub fn limit_of(k: Option<Counting>) -> Option<u64>
    ensures { result ≡ specs.limit_of (option_map counting_in_code k.entry) }
{
    match k {
        None => None,
        Some(k) => k.limit,
    }
}
