// A pruner that knows one database, which refutes one candidate: nothing chosen for users of role 2.
ghost use Rattle.std.specs.Prelude.{◌≡◌, true, false, [], ◌∷◌, None, Some, map};
ghost use Rattle.tor_terms.specs.declared.term.Atom.TheVariants as atom_forms;
ghost use Rattle.tor_terms.specs.declared.term.Elem.TheVariants as elem_forms;
ghost use Rattle.tor_terms.specs.declared.term.Operand.TheVariants as operand_forms;
ghost use Rattle.tor_terms.specs.Plain.{Is, form_of, forms_of};
ghost use Rattle.kernel_lang.specs.declared.parts.Update.TheVariants as update_forms;
ghost use Rattle.kernel_lang.specs.declared.prune.PruneAnswer.TheVariants as answers;
ghost use Rattle.kernel_lang.specs.Plain.{accumulator, guard_of};
ghost use Rattle.kernel_lang.specs.Refuted.{IsRefuted};
ghost use Rattle.kernel_lang.specs.Whole.{fragment_of};
ghost use Rattle.kernel_lang.specs.Worked.{all_of, class_A, long, over_one};

use kernel_lang::{Acc, Candidate, KFragment, ListDef, PruneAnswer, Update};
use qbs_base::Scalar;
use tor_terms::{Atom, Elem, Formula, Operand};

fn is_users(lists: &[ListDef]) -> bool
    ensures { result ≡ true → lists.now ≡ all_of 0 ∷ [] }
{
    match lists {
        [list] => list.table == 0 && list.keys.is_empty() && list.limit.is_none(),
        _ => false,
    }
}

fn is_role(operand: &Operand) -> bool
    ensures { result ≡ true → operand.now ≡ operand_forms.Field 0 2 }
{
    match operand {
        Operand::Field(j, c) => *j == 0 && *c == 2,
        _ => false,
    }
}

fn is_two(operand: &Operand) -> bool
    ensures { result ≡ true → operand.now ≡ operand_forms.Lit (long 2) }
{
    match operand {
        Operand::Lit(Scalar::Long(n)) => *n == 2,
        _ => false,
    }
}

fn is_test(atom: &Atom) -> bool
    ensures { result ≡ true → atom.now ≡ atom_forms.Same (operand_forms.Field 0 2) (operand_forms.Lit (long 2)) }
{
    match atom {
        Atom::Same(a, b) => is_role(a) && is_two(b),
        _ => false,
    }
}

fn are_tests(atoms: &[Atom]) -> bool
    ensures { result ≡ true → atoms.now ≡ atom_forms.Same (operand_forms.Field 0 2) (operand_forms.Lit (long 2)) ∷ [] }
{
    match atoms {
        [atom] => is_test(atom),
        _ => false,
    }
}

fn is_literal(f: &Formula, sign: bool) -> bool
    ensures { result ≡ true → form_of f.now ≡ Is 0 sign }
{
    match f {
        Formula::Is(k, holds) => *k == 0 && *holds == sign,
        _ => false,
    }
}

fn is_guarded(guards: &[Option<Formula>]) -> bool
    ensures { result ≡ true → map guard_of guards.now ≡ Some (Is 0 true) ∷ [] }
{
    match guards {
        [Some(f)] => is_literal(f, true),
        _ => false,
    }
}

fn is_pool(pool: &[Formula]) -> bool
    ensures { result ≡ true → forms_of pool.now ≡ Is 0 true ∷ Is 0 false ∷ [] }
{
    match pool {
        [f, g] => is_literal(f, true) && is_literal(g, false),
        _ => false,
    }
}

fn adds_rows(update: Update) -> bool
    ensures { result ≡ true → update ≡ update_forms.Push (elem_forms.Whole 0) }
{
    match update {
        Update::Push(Elem::Whole(j)) => j == 0,
        _ => false,
    }
}

fn is_first(chain: &[u32]) -> bool
    ensures { result ≡ true → chain.now ≡ 0 ∷ [] }
{
    match chain {
        [j] => *j == 0,
        _ => false,
    }
}

fn is_adding(a: &Acc) -> bool
    ensures { result ≡ true
        → accumulator a.now
        ≡ over_one (Some (Is 0 true)) (update_forms.Push (elem_forms.Whole 0)) None false (Is 0 true ∷ Is 0 false ∷ []) }
{
    is_first(a.chain.as_slice())
        && a.base == 0
        && is_guarded(a.guards.as_slice())
        && adds_rows(a.update)
        && a.start.is_none()
        && !a.opposite
        && is_pool(a.pool.as_slice())
}

fn are_adding(accs: &[Acc]) -> bool
    ensures { result ≡ true
        → map accumulator accs.now
        ≡ over_one (Some (Is 0 true)) (update_forms.Push (elem_forms.Whole 0)) None false (Is 0 true ∷ Is 0 false ∷ [])
        ∷ [] }
{
    match accs {
        [a] => is_adding(a),
        _ => false,
    }
}

/// Whether a fragment is the worked class.
pub fn is_known(frag: &KFragment) -> bool
    ensures { result ≡ true → fragment_of frag.now ≡ class_A }
{
    is_users(frag.lists.as_slice())
        && are_tests(frag.atoms.as_slice())
        && are_adding(frag.accs.as_slice())
        && frag.entries.is_empty()
        && frag.known == 0
}

/// Drops the empty candidate of users of role 2, which a database with one user of role 1 refutes.
pub fn answer_by_one_database(frag: &KFragment, cand: &Candidate) -> PruneAnswer
    ensures { result ≡ answers.Drop → ∥ IsRefuted (fragment_of frag.now) cand.now ∥₁ }
{
    if cand.is_empty() && is_known(frag) {
        PruneAnswer::Drop
    } else {
        PruneAnswer::Keep
    }
}
