// The leaves of all conditions of a loop.
ghost use Rattle.std.specs.Prelude.{◌≡◌, ◌++◌, OnOk, IfOk, map, option_copied};
ghost use Rattle.std.specs.Option.{option_map};
ghost use Rattle.java_ast.specs.Reading.{expression};
ghost use Rattle.lowering.specs.InCode.Numbered.{leaf_in_code};
ghost use Rattle.java_loops.specs.Lowering.Numbering as specs;
ghost use Rattle.loop_text.specs.Sites.Reading.{exprs_lent};
ghost use Rattle.lowering.specs.InCode.Reading.{setting_in_code};

use java_ast::Expr;
use loop_setting::places::setting::Setting;
use loop_text::conditions::flags::condition_of;
use loop_text::conditions::leaves::{is_excepted, push_leaves};
use qbs_base::{Items, NoMemory};
use std::alloc::Global;

/// A leaf of the condition of the `if` with this number.
#[derive(Clone, Copy)]
pub struct Leaf<'a> {
    pub number: usize,
    pub expression: &'a Expr,
}

pub type LeafList<'a> = Items<Leaf<'a>>;

#[tactic(auto, using(loop_text::proofs::Trees::Claimed::lent))]
fn push_kept<'a>(
    w: &Setting,
    number: usize,
    leaves: &[&'a Expr],
    found: &mut LeafList<'a>,
) -> Result<(), NoMemory>
    ensures { OnOk result (map leaf_in_code found.new ≡ map leaf_in_code found.old ++ specs.leaves_kept (setting_in_code w.now).sites number (exprs_lent leaves.now)) }
{
    for e in leaves {
        if !is_excepted(w.sites, number, e) {
            found.push(Leaf {
                number,
                expression: *e,
            })?;
        }
    }
    Ok(())
}

fn push_leaves_of<'a>(
    alloc: Global,
    w: &Setting,
    number: usize,
    condition: Option<&'a Expr>,
    found: &mut LeafList<'a>,
) -> Result<(), NoMemory>
    ensures { OnOk result (
        map leaf_in_code found.new
        ≡ map leaf_in_code found.old
        ++ specs.leaves_of (setting_in_code w.now).sites number (option_map expression (option_copied condition.entry))) }
{
    match condition {
        None => Ok(()),
        Some(e) => {
            let mut leaves = Items::new(alloc);
            push_leaves(e, &mut leaves)?;
            push_kept(w, number, leaves.as_slice(), found)
        }
    }
}

/// The leaves of all conditions in text order, but for the conjuncts of best values.
#[tactic(auto, using(loop_text::proofs::Trees::Claimed::lent))]
pub fn all_leaves<'a>(alloc: Global, w: &Setting<'a>) -> Result<LeafList<'a>, NoMemory>
    ensures { IfOk result (λ ls. map leaf_in_code ls ≡ specs.all_leaves (setting_in_code w.now).sites) }
{
    let mut found = Items::new(alloc);
    for (n, s) in w.sites.as_slice().iter().enumerate() {
        push_leaves_of(alloc, w, n, condition_of(s.statement), &mut found)?;
    }
    Ok(found)
}
