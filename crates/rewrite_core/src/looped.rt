// A loop that gives way.
use java_ast::{Path, Program, Stmt};
use kernel_lang::Candidate;
use lowering::Lowered;
use qbs_base::Span;
use schema::Schema;

/// A loop of a program with a candidate: the path to it, the run before it and its place, and what it is lowered to.
#[derive(Clone, Copy)]
pub struct LoopWithCandidate<'a> {
    pub schema: &'a Schema,
    pub program: &'a Program,
    pub path: &'a Path,
    pub run: &'a [Stmt],
    pub at: Span,
    pub lowered: &'a Lowered,
    pub candidate: &'a Candidate,
}
