//! Programs of the source language as trees, and nodes made of their parts.
#![tactic(auto)]

pub mod build;
pub mod lists;
mod path;
mod tree;

pub use path::{at_path, branch, names_other};
pub use tree::{
    Access, Expr, ExprNode, Exprs, JTy, Method, Methods, Op, Param, Params, Path, Paths, Program,
    Stmt, StmtNode, Stmts,
};
