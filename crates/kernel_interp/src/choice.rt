// The truth of formulas, with the flags that they read as a candidate chooses them.
ghost use Rattle.std.specs.Prelude.{◌≡◌, true, drop, map, slice_get, option_copied, option_map};
ghost use Rattle.tor_terms.specs.Plain.{form_of};
ghost use Rattle.tor_terms.specs.Truth as spec;
ghost use Rattle.kernel_interp.specs.Claiming.{chosen_world};
ghost use Rattle.kernel_interp.specs.Members.{forms_lent, member_seen, members_seen, flag_is_sound, names_a_member};
ghost use Rattle.kernel_interp.specs.Reading.{rows_in, plain_of};

use crate::atom::test_holds;
use crate::claims::Claims;
use crate::member::Member;
use crate::place::Place;
use crate::visit::visits_at;
use kernel_lang::Acc;
use tor_terms::{Atom, Formula, same_bool};

// The accumulator with that number, with its choice.
#[tactic(auto, using(crate::proofs::Mapped::mapped))]
fn member_at<'a, 'b, 'c>(claims: Claims<'a, 'b, 'c>, k: u32) -> Option<&'b Member<'c>>
    ensures { option_map member_seen (option_copied result) ≡ slice_get (members_seen claims.entry.members.now) k }
{
    claims.members.get(k as usize)
}

// The loops inside the declaration.
fn inner_loops(acc: &Acc) -> &[u32]
    ensures { result.now ≡ drop acc.now.base acc.now.chain }
{
    let chain = acc.chain.as_slice();
    if chain.len() < acc.base as usize {
        return &[];
    }
    &chain[acc.base as usize..]
}

// Whether a flag is set by its choice at the rows of these loops.
fn flag_holds(claims: Claims, k: u32, loops: &[u32], place: &Place) -> bool
    requires { flag_is_sound loops.now (slice_get (members_seen claims.members.now) k) ≡ true }
    ensures { result ≡ (chosen_world claims.entry).flags k (map (rows_in place.now) loops.now) }
{
    match member_at(claims, k) {
        Some(member) => {
            let outside = Place::Outside(claims.setting.no_row);
            let inner = inner_loops(member.acc);
            visits_at(
                claims.setting,
                member.chosen.as_slice(),
                inner,
                loops,
                place,
                &outside,
            )
        }
        None => false,
    }
}

fn atom_holds(claims: Claims, a: &Atom, place: &Place) -> bool
    requires { names_a_member (members_seen claims.members.now) a.now ≡ true }
    ensures { result ≡ spec.atom_holds (chosen_world claims.entry) (rows_in place.now) a.now }
{
    match a {
        Atom::Flag(k, loops) => flag_holds(claims, *k, loops.as_slice(), place),
        Atom::Less(_, _) => test_holds(claims.setting, a, place),
        Atom::Same(_, _) => test_holds(claims.setting, a, place),
        Atom::Truth(_) => test_holds(claims.setting, a, place),
        Atom::Member(_, _) => test_holds(claims.setting, a, place),
    }
}

// The atom with that number.
fn atom_at<'a, 'b, 'c>(claims: Claims<'a, 'b, 'c>, k: u32) -> Option<&'a Atom>
    ensures { option_copied result ≡ slice_get (plain_of claims.entry.setting).atoms k }
{
    claims.setting.frag.atoms.as_slice().get(k as usize)
}

fn truth(claims: Claims, k: u32, place: &Place) -> bool
    ensures { result ≡ spec.truth (chosen_world claims.entry) (plain_of claims.entry.setting).atoms (rows_in place.now) k }
{
    match atom_at(claims, k) {
        Some(a) => atom_holds(claims, a, place),
        None => false,
    }
}

fn holds(claims: Claims, f: &Formula, place: &Place) -> bool
    ensures { result ≡ spec.holds (chosen_world claims.entry) (plain_of claims.entry.setting).atoms (rows_in place.now) (form_of f.now) }
{
    match f {
        Formula::Is(k, s) => same_bool(truth(claims, *k, place), *s),
        Formula::Both(g, h) => holds(claims, g, place) && holds(claims, h, place),
        Formula::Either(g, h) => holds(claims, g, place) || holds(claims, h, place),
    }
}

/// Whether all of these formulas hold.
pub fn all_hold(claims: Claims, fs: &[&Formula], place: &Place) -> bool
    ensures { result ≡ spec.all_hold (chosen_world claims.entry) (plain_of claims.entry.setting).atoms (rows_in place.now) (forms_lent fs.now) }
{
    match fs.split_first() {
        None => true,
        Some((f, rest)) => holds(claims, f, place) && all_hold(claims, rest, place),
    }
}
