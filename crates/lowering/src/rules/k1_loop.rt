// Loops of the kernel form.
ghost use Rattle.std.specs.Prelude.{◌≡◌};
ghost use Rattle.std.specs.Option.{option_map};
ghost use Rattle.java_ast.specs.Reading.{statement, statements};
ghost use Rattle.java_loops.specs.Kernel.KernelLoop as specs;
ghost use Rattle.loop_text.specs.Sites.Reading.{counting_in_code};
ghost use Rattle.lowering.specs.InCode.Reading.{setting_in_code};
ghost use Rattle.loop_setting.specs.Reading.{fragment_in_code};

use java_ast::{Stmt, StmtNode};
use loop_setting::kept::live::is_live;
use loop_setting::places::setting::Setting;
use loop_text::loops::counting::{
    Counting, counting_by, counts_in, has_inner_while, starts_at_zero,
};
use loop_text::sites::list::place_where;
use qbs_base::Span;

fn counts_rightly(w: &Setting, k: Option<Counting>, body: &[Stmt]) -> bool
    ensures { result ≡ specs.counts_rightly (fragment_in_code w.now.fragment) (option_map counting_in_code k.entry) (statements body.now) }
{
    match k {
        None => false,
        Some(k) => {
            counts_in(k, body)
                && (starts_at_zero(k.counter, w.fragment.run) && !is_live(&w.fragment, k.counter))
        }
    }
}

// A for-each, or a loop that counts.
#[tactic(auto, using(java_ast::proofs::Nodes::nodes))]
fn is_kernel_loop(w: &Setting, s: &Stmt) -> bool
    ensures { result ≡ specs.is_kernel_loop (fragment_in_code w.now.fragment) (statement s.now) }
{
    match &s.node {
        StmtNode::ForEach { .. } => true,
        StmtNode::While { cond, body } => counts_rightly(w, counting_by(cond), body),
        _ => false,
    }
}

/// K1: the place of the loop, where it is no for-each and doesn't count from 0 to the size of a list
/// or to a limit, or where an inner loop is no for-each.
#[tactic(auto, using(loop_text::proofs::Trees::Rounds::rounds))]
pub fn broken_loop(w: &Setting) -> Option<Span>
    ensures { result ≡ specs.broken_loop (setting_in_code w.now) }
{
    place_where(
        has_inner_while(w.sites) || !is_kernel_loop(w, w.fragment.looped),
        w.fragment.looped.span,
    )
}
