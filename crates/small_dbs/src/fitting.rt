// Whether a fragment fits a schema.
ghost use Rattle.std.specs.Prelude.{◌≡◌, ◌+◌, ◌<◌, ◌^◌, ◌&&◌, Some, length, map, nat_lt, slice_get};
ghost use Rattle.std.specs.List.{flat_map, list_all};
ghost use Rattle.kernel_lang.specs.Fitting as fitting;
ghost use Rattle.kernel_lang.specs.Plain.{accumulator};
ghost use Rattle.kernel_lang.specs.Typed as spec;
ghost use Rattle.kernel_lang.specs.Validity as validity;
ghost use Rattle.kernel_lang.specs.Whole.{fragment_of};

use kernel_lang::{Acc, Col, KFragment, ListDef, Update};
use qbs_base::{Scalar, Table, Ty};
use schema::Schema;
use tor_terms::{Atom, Elem, Operand};

fn table_column(table: &Table, c: usize) -> Option<Ty>
    ensures { result ≡ spec.column_type (slice_get table.now.columns c) }
{
    match table.columns.as_slice().get(c) {
        Some(column) => Some(column.ty),
        None => None,
    }
}

// The type of a column that is named for a loop's list, where it is there.
fn place_type(tables: &[Table], frag: &KFragment, j: usize, c: u32) -> Option<Ty>
    ensures { result ≡ spec.place_type tables.now (fragment_of frag.now) (j, c) }
{
    match frag.lists.as_slice().get(j) {
        Some(list) => match tables.get(list.table as usize) {
            Some(table) => table_column(table, c as usize),
            None => None,
        },
        None => None,
    }
}

fn scalar_type(x: &Scalar) -> Ty
    ensures { result ≡ spec.scalar_type x.now }
{
    match x {
        Scalar::Long(_) => Ty::Long,
        Scalar::Bool(_) => Ty::Bool,
        Scalar::Text(_) => Ty::Text,
    }
}

/// The type of an operand, where its column or entry is there.
pub fn operand_type(tables: &[Table], frag: &KFragment, a: &Operand) -> Option<Ty>
    ensures { result ≡ spec.operand_type tables.now (fragment_of frag.now) a.now }
{
    match a {
        Operand::Field(j, c) => place_type(tables, frag, *j as usize, *c),
        Operand::Entry(k) => match frag.entries.as_slice().get(*k as usize) {
            Some(ty) => Some(*ty),
            None => None,
        },
        Operand::Lit(x) => Some(scalar_type(x)),
    }
}

fn same_type(a: Option<Ty>, b: Option<Ty>) -> bool
    ensures { result ≡ spec.same_type a b }
{
    match (a, b) {
        (Some(Ty::Long), Some(Ty::Long)) => true,
        (Some(Ty::Bool), Some(Ty::Bool)) => true,
        (Some(Ty::Text), Some(Ty::Text)) => true,
        _ => false,
    }
}

fn place_is_there(tables: &[Table], frag: &KFragment, j: usize, c: u32) -> bool
    ensures { result ≡ spec.place_is_there tables.now (fragment_of frag.now) (j, c) }
{
    let ty = place_type(tables, frag, j, c);
    same_type(ty, ty)
}

fn tables_are_there(tables: &[Table], lists: &[ListDef]) -> bool
    ensures { result ≡ list_all (λ d. nat_lt d.table (length tables.now)) lists.now }
{
    match lists.split_first() {
        None => true,
        Some((list, rest)) => {
            (list.table as usize) < tables.len() && tables_are_there(tables, rest)
        }
    }
}

fn keys_are_there(tables: &[Table], frag: &KFragment, j: usize, keys: &[Col]) -> bool
    ensures { result ≡ list_all (spec.place_is_there tables.now (fragment_of frag.now)) (map (λ key. (j, key.column)) keys.now) }
{
    match keys.split_first() {
        None => true,
        Some((key, rest)) => {
            place_is_there(tables, frag, j, key.column) && keys_are_there(tables, frag, j, rest)
        }
    }
}

fn sorts_are_there(tables: &[Table], frag: &KFragment, j: usize, lists: &[ListDef]) -> bool
    requires { j + length lists.now < 2 ^ 63 }
    ensures { result ≡ list_all (spec.place_is_there tables.now (fragment_of frag.now)) (fitting.key_places j lists.now) }
{
    match lists.split_first() {
        None => true,
        Some((list, rest)) => {
            keys_are_there(tables, frag, j, list.keys.as_slice())
                && sorts_are_there(tables, frag, j + 1, rest)
        }
    }
}

fn operand_is_there(tables: &[Table], frag: &KFragment, a: &Operand) -> bool
    ensures { result ≡ list_all (spec.place_is_there tables.now (fragment_of frag.now)) (fitting.operand_places a.now) }
{
    match a {
        Operand::Field(j, c) => place_is_there(tables, frag, *j as usize, *c),
        _ => true,
    }
}

fn atom_is_there(tables: &[Table], frag: &KFragment, a: &Atom) -> bool
    ensures { result ≡ list_all (spec.place_is_there tables.now (fragment_of frag.now)) (fitting.atom_places a.now) }
{
    match a {
        Atom::Less(x, y) => operand_is_there(tables, frag, x) && operand_is_there(tables, frag, y),
        Atom::Same(x, y) => operand_is_there(tables, frag, x) && operand_is_there(tables, frag, y),
        Atom::Truth(x) => operand_is_there(tables, frag, x),
        Atom::Member(x, _) => operand_is_there(tables, frag, x),
        Atom::Flag(_, _) => true,
    }
}

fn atoms_are_there(tables: &[Table], frag: &KFragment, atoms: &[Atom]) -> bool
    ensures { result ≡ list_all (spec.place_is_there tables.now (fragment_of frag.now)) (flat_map fitting.atom_places atoms.now) }
{
    match atoms.split_first() {
        None => true,
        Some((a, rest)) => atom_is_there(tables, frag, a) && atoms_are_there(tables, frag, rest),
    }
}

fn element_is_there(tables: &[Table], frag: &KFragment, e: Elem) -> bool
    ensures { result ≡ list_all (spec.place_is_there tables.now (fragment_of frag.now)) (fitting.element_places (Some e)) }
{
    match e {
        Elem::Whole(_) => true,
        Elem::Field(j, c) => place_is_there(tables, frag, j as usize, c),
    }
}

fn update_is_there(tables: &[Table], frag: &KFragment, update: Update) -> bool
    ensures { result ≡ list_all (spec.place_is_there tables.now (fragment_of frag.now)) (fitting.element_places (validity.element_of update)) }
{
    match update {
        Update::Push(e) => element_is_there(tables, frag, e),
        Update::PushNew(e) => element_is_there(tables, frag, e),
        Update::Tick => true,
        Update::Plus(e) => element_is_there(tables, frag, e),
        Update::Best(_, e) => element_is_there(tables, frag, e),
        Update::Mark => true,
    }
}

fn updates_are_there(tables: &[Table], frag: &KFragment, accs: &[Acc]) -> bool
    ensures { result ≡ list_all (spec.place_is_there tables.now (fragment_of frag.now)) (flat_map (λ a. fitting.element_places (validity.element_of a.update)) (map accumulator accs.now)) }
{
    match accs.split_first() {
        None => true,
        Some((acc, rest)) => {
            update_is_there(tables, frag, acc.update) && updates_are_there(tables, frag, rest)
        }
    }
}

fn is_field(a: &Operand) -> bool
    ensures { result ≡ validity.is_field a.now }
{
    match a {
        Operand::Field(_, _) => true,
        _ => false,
    }
}

fn atom_is_typed(tables: &[Table], frag: &KFragment, a: &Atom) -> bool
    ensures { result ≡ spec.atom_is_typed tables.now (fragment_of frag.now) a.now }
{
    match a {
        Atom::Less(x, y) => {
            let ty = operand_type(tables, frag, x);
            same_type(ty, operand_type(tables, frag, y)) && !same_type(Some(Ty::Bool), ty)
        }
        Atom::Same(x, y) => same_type(operand_type(tables, frag, x), operand_type(tables, frag, y)),
        Atom::Truth(x) => same_type(Some(Ty::Bool), operand_type(tables, frag, x)),
        Atom::Member(x, _) => {
            let ty = operand_type(tables, frag, x);
            is_field(x) && same_type(ty, ty)
        }
        Atom::Flag(_, _) => true,
    }
}

fn atoms_are_typed(tables: &[Table], frag: &KFragment, atoms: &[Atom]) -> bool
    ensures { result ≡ list_all (spec.atom_is_typed tables.now (fragment_of frag.now)) atoms.now }
{
    match atoms.split_first() {
        None => true,
        Some((a, rest)) => atom_is_typed(tables, frag, a) && atoms_are_typed(tables, frag, rest),
    }
}

// Two tests of one known list are of one type.
fn members_agree(tables: &[Table], frag: &KFragment, a: &Atom, b: &Atom) -> bool
    ensures { result ≡ spec.members_agree tables.now (fragment_of frag.now) a.now b.now }
{
    match (a, b) {
        (Atom::Member(x, q), Atom::Member(y, r)) => {
            *q != *r || same_type(operand_type(tables, frag, x), operand_type(tables, frag, y))
        }
        _ => true,
    }
}

fn agrees_with_all(tables: &[Table], frag: &KFragment, a: &Atom, atoms: &[Atom]) -> bool
    ensures { result ≡ list_all (spec.members_agree tables.now (fragment_of frag.now) a.now) atoms.now }
{
    match atoms.split_first() {
        None => true,
        Some((b, rest)) => {
            members_agree(tables, frag, a, b) && agrees_with_all(tables, frag, a, rest)
        }
    }
}

fn all_agree(tables: &[Table], frag: &KFragment, atoms: &[Atom]) -> bool
    ensures { result ≡ list_all (λ a. list_all (spec.members_agree tables.now (fragment_of frag.now) a) (fragment_of frag.now).atoms) atoms.now }
{
    match atoms.split_first() {
        None => true,
        Some((a, rest)) => {
            agrees_with_all(tables, frag, a, frag.atoms.as_slice()) && all_agree(tables, frag, rest)
        }
    }
}

fn update_is_typed(tables: &[Table], frag: &KFragment, update: Update) -> bool
    ensures { result ≡ spec.update_is_typed tables.now (fragment_of frag.now) update }
{
    match update {
        Update::Plus(Elem::Field(j, c)) => {
            same_type(Some(Ty::Long), place_type(tables, frag, j as usize, c))
        }
        Update::Best(_, Elem::Field(j, c)) => {
            same_type(Some(Ty::Long), place_type(tables, frag, j as usize, c))
        }
        _ => true,
    }
}

fn updates_are_typed(tables: &[Table], frag: &KFragment, accs: &[Acc]) -> bool
    ensures { result ≡ list_all (λ a. spec.update_is_typed tables.now (fragment_of frag.now) a.update) (map accumulator accs.now) }
{
    match accs.split_first() {
        None => true,
        Some((acc, rest)) => {
            update_is_typed(tables, frag, acc.update) && updates_are_typed(tables, frag, rest)
        }
    }
}

/// Whether the tables and columns of a fragment are in the schema, both sides of each comparison are of
/// one type, which for an order is a number or a text, each test of a truth value is of one, each sum
/// and each greatest or least is of numbers, and what is looked up in one known list is of one type.
/// It takes no memory.
pub fn fits(schema: &Schema, frag: &KFragment) -> bool
    ensures exact { result ≡ spec.is_typed schema.now (fragment_of frag.now) }
{
    is_typed(schema.tables(), frag)
}

fn is_typed(tables: &[Table], frag: &KFragment) -> bool
    ensures { result ≡ spec.is_typed tables.now (fragment_of frag.now) }
{
    tests_are_typed(tables, frag) && updates_are_typed(tables, frag, frag.accs.as_slice())
}

// What is named is there, each test is of one type, and so are those of one known list.
fn tests_are_typed(tables: &[Table], frag: &KFragment) -> bool
    ensures { result
        ≡ (list_all (λ d. nat_lt d.table (length tables.now)) (fragment_of frag.now).lists
        && list_all (spec.place_is_there tables.now (fragment_of frag.now)) (fitting.named_places (fragment_of frag.now))
        && list_all (spec.atom_is_typed tables.now (fragment_of frag.now)) (fragment_of frag.now).atoms
        && list_all (λ a. list_all (spec.members_agree tables.now (fragment_of frag.now) a) (fragment_of frag.now).atoms) (fragment_of frag.now).atoms) }
{
    parts_are_typed(tables, frag) && all_agree(tables, frag, frag.atoms.as_slice())
}

// What is named is there, and each test is of one type.
fn parts_are_typed(tables: &[Table], frag: &KFragment) -> bool
    ensures { result
        ≡ (list_all (λ d. nat_lt d.table (length tables.now)) (fragment_of frag.now).lists
        && list_all (spec.place_is_there tables.now (fragment_of frag.now)) (fitting.named_places (fragment_of frag.now))
        && list_all (spec.atom_is_typed tables.now (fragment_of frag.now)) (fragment_of frag.now).atoms) }
{
    tables_are_there(tables, frag.lists.as_slice())
        && places_are_there(tables, frag)
        && atoms_are_typed(tables, frag, frag.atoms.as_slice())
}

fn places_are_there(tables: &[Table], frag: &KFragment) -> bool
    ensures { result ≡ list_all (spec.place_is_there tables.now (fragment_of frag.now)) (fitting.named_places (fragment_of frag.now)) }
{
    sorts_are_there(tables, frag, 0, frag.lists.as_slice())
        && atoms_are_there(tables, frag, frag.atoms.as_slice())
        && updates_are_there(tables, frag, frag.accs.as_slice())
}
