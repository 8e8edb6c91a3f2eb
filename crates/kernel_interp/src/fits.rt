// Whether the parts of a fragment fit a database, entry values and known lists.
ghost use Rattle.std.specs.Prelude.{◌≡◌, ◌↔◌, ◌+◌, ◌<◌, ◌^◌, ◌&&◌, Some, [], IsTrue, length, map, get_or, slice_get, option_copied};
ghost use Rattle.std.specs.List.{flat_map, list_all};
ghost use Rattle.qbs_base.specs.Values.{fits_long, HasTy, AreOf};
ghost use Rattle.kernel_lang.specs.Fitting as fitting;
ghost use Rattle.kernel_lang.specs.Plain.{accumulator};
ghost use Rattle.kernel_lang.specs.Typed as typed;
ghost use Rattle.kernel_lang.specs.Validity as validity;
ghost use Rattle.kernel_lang.specs.Whole.{fragment_of};
ghost use Rattle.kernel_interp.specs.Fits as spec;

use crate::list::table_rows;
use kernel_lang::{Acc, Col, Entry, KFragment, ListDef, Update};
use qbs_base::{Db, Row, Scalar, Ty};
use tor_terms::{Atom, Elem, Operand};

fn scalar_type(x: &Scalar) -> Ty
    ensures { result ≡ typed.scalar_type x.now }
{
    match x {
        Scalar::Long(_) => Ty::Long,
        Scalar::Bool(_) => Ty::Bool,
        Scalar::Text(_) => Ty::Text,
    }
}

fn type_found(x: Option<&Scalar>) -> Option<Ty>
    ensures { result ≡ spec.type_found (option_copied x.entry) }
{
    match x {
        Some(x) => Some(scalar_type(x)),
        None => None,
    }
}

fn same_type(a: Option<Ty>, b: Option<Ty>) -> bool
    ensures { result ≡ typed.same_type a b }
{
    match (a, b) {
        (Some(Ty::Long), Some(Ty::Long)) => true,
        (Some(Ty::Bool), Some(Ty::Bool)) => true,
        (Some(Ty::Text), Some(Ty::Text)) => true,
        _ => false,
    }
}

// Both are numbers, or both texts.
fn are_ordered(a: Option<Ty>, b: Option<Ty>) -> bool
    ensures { result ≡ spec.are_ordered a b }
{
    match (a, b) {
        (Some(Ty::Long), Some(Ty::Long)) => true,
        (Some(Ty::Text), Some(Ty::Text)) => true,
        _ => false,
    }
}

// The rows of a loop's table.
fn rows_over<'a>(db: &'a Db, frag: &KFragment, j: usize) -> &'a [Row]
    ensures { result.now ≡ fitting.table_at db.now (slice_get (fragment_of frag.now).lists j) }
{
    match frag.lists.as_slice().get(j) {
        Some(list) => table_rows(db, list.table),
        None => &[],
    }
}

fn first_type(rows: &[Row], c: usize) -> Option<Ty>
    ensures { result ≡ spec.first_type c rows.now }
{
    match rows.split_first() {
        None => None,
        Some((row, _)) => type_found(row.cells.as_slice().get(c)),
    }
}

fn is_of(ty: Option<Ty>, row: &Row, c: usize) -> bool
    ensures { result ≡ typed.same_type ty (spec.type_found (slice_get row.now.cells c)) }
{
    same_type(ty, type_found(row.cells.as_slice().get(c)))
}

fn are_all_of(ty: Option<Ty>, rows: &[Row], c: usize) -> bool
    ensures { result ≡ spec.are_all_of ty c rows.now }
{
    for row in rows {
        if !is_of(ty, row, c) {
            return false;
        }
    }
    true
}

fn place_type(db: &Db, frag: &KFragment, j: usize, c: u32) -> Option<Ty>
    ensures { result ≡ spec.place_type (fragment_of frag.now) db.now (j, c) }
{
    first_type(rows_over(db, frag, j), c as usize)
}

// Each row of the loop's table has the column, of the type of the first one.
fn place_fits(db: &Db, frag: &KFragment, j: usize, c: u32) -> bool
    ensures { result ≡ spec.place_fits (fragment_of frag.now) db.now (j, c) }
{
    let rows = rows_over(db, frag, j);
    are_all_of(first_type(rows, c as usize), rows, c as usize)
}

fn keys_fit(db: &Db, frag: &KFragment, j: usize, keys: &[Col]) -> bool
    ensures { result ≡ list_all (spec.place_fits (fragment_of frag.now) db.now) (map (λ key. (j, key.column)) keys.now) }
{
    match keys.split_first() {
        None => true,
        Some((key, rest)) => place_fits(db, frag, j, key.column) && keys_fit(db, frag, j, rest),
    }
}

fn sorts_fit(db: &Db, frag: &KFragment, j: usize, lists: &[ListDef]) -> bool
    requires { j + length lists.now < 2 ^ 63 }
    ensures { result ≡ list_all (spec.place_fits (fragment_of frag.now) db.now) (fitting.key_places j lists.now) }
{
    match lists.split_first() {
        None => true,
        Some((list, rest)) => {
            keys_fit(db, frag, j, list.keys.as_slice()) && sorts_fit(db, frag, j + 1, rest)
        }
    }
}

fn operand_fits(db: &Db, frag: &KFragment, a: &Operand) -> bool
    ensures { result ≡ list_all (spec.place_fits (fragment_of frag.now) db.now) (fitting.operand_places a.now) }
{
    match a {
        Operand::Field(j, c) => place_fits(db, frag, *j as usize, *c),
        _ => true,
    }
}

fn atom_fits(db: &Db, frag: &KFragment, a: &Atom) -> bool
    ensures { result ≡ list_all (spec.place_fits (fragment_of frag.now) db.now) (fitting.atom_places a.now) }
{
    match a {
        Atom::Less(x, y) => operand_fits(db, frag, x) && operand_fits(db, frag, y),
        Atom::Same(x, y) => operand_fits(db, frag, x) && operand_fits(db, frag, y),
        Atom::Truth(x) => operand_fits(db, frag, x),
        Atom::Member(x, _) => operand_fits(db, frag, x),
        Atom::Flag(_, _) => true,
    }
}

fn atoms_fit(db: &Db, frag: &KFragment, atoms: &[Atom]) -> bool
    ensures { result ≡ list_all (spec.place_fits (fragment_of frag.now) db.now) (flat_map fitting.atom_places atoms.now) }
{
    match atoms.split_first() {
        None => true,
        Some((a, rest)) => atom_fits(db, frag, a) && atoms_fit(db, frag, rest),
    }
}

fn element_fits(db: &Db, frag: &KFragment, e: Elem) -> bool
    ensures { result ≡ list_all (spec.place_fits (fragment_of frag.now) db.now) (fitting.element_places (Some e)) }
{
    match e {
        Elem::Whole(_) => true,
        Elem::Field(j, c) => place_fits(db, frag, j as usize, c),
    }
}

fn taken_fits(db: &Db, frag: &KFragment, update: Update) -> bool
    ensures { result ≡ list_all (spec.place_fits (fragment_of frag.now) db.now) (fitting.element_places (validity.element_of update)) }
{
    match update {
        Update::Push(e) => element_fits(db, frag, e),
        Update::PushNew(e) => element_fits(db, frag, e),
        Update::Tick => true,
        Update::Plus(e) => element_fits(db, frag, e),
        Update::Best(_, e) => element_fits(db, frag, e),
        Update::Mark => true,
    }
}

fn all_taken_fit(db: &Db, frag: &KFragment, accs: &[Acc]) -> bool
    ensures { result ≡ list_all (spec.place_fits (fragment_of frag.now) db.now)
        (flat_map (λ a. fitting.element_places (validity.element_of a.update)) (map accumulator accs.now)) }
{
    match accs.split_first() {
        None => true,
        Some((acc, rest)) => taken_fits(db, frag, acc.update) && all_taken_fit(db, frag, rest),
    }
}

fn columns_fit(db: &Db, frag: &KFragment) -> bool
    ensures { result ≡ list_all (spec.place_fits (fragment_of frag.now) db.now) (fitting.named_places (fragment_of frag.now)) }
{
    sorts_fit(db, frag, 0, frag.lists.as_slice())
        && atoms_fit(db, frag, frag.atoms.as_slice())
        && all_taken_fit(db, frag, frag.accs.as_slice())
}

fn is_none_left(limit: Option<u64>, rows: &[Row]) -> bool
    ensures { result ≡ spec.is_none_left limit rows.now }
{
    match rows.split_first() {
        None => true,
        Some(_) => match limit {
            None => false,
            Some(n) => n == 0,
        },
    }
}

// The list of a loop has no row.
fn has_no_row(db: &Db, frag: &KFragment, j: usize) -> bool
    ensures { result ≡ spec.has_no_row db.now (slice_get (fragment_of frag.now).lists j) }
{
    match frag.lists.as_slice().get(j) {
        None => true,
        Some(list) => is_none_left(list.limit, table_rows(db, list.table)),
    }
}

fn is_never_read(db: &Db, frag: &KFragment, a: &Operand) -> bool
    ensures { result ≡ spec.is_never_read (fragment_of frag.now) db.now a.now }
{
    match a {
        Operand::Field(j, _) => has_no_row(db, frag, *j as usize),
        _ => false,
    }
}

fn operand_type(db: &Db, frag: &KFragment, entry: &Entry, a: &Operand) -> Option<Ty>
    ensures { result ≡ spec.operand_type (fragment_of frag.now) db.now entry.now a.now }
{
    match a {
        Operand::Field(j, c) => place_type(db, frag, *j as usize, *c),
        Operand::Entry(k) => type_found(entry.values.as_slice().get(*k as usize)),
        Operand::Lit(x) => Some(scalar_type(x)),
    }
}

fn are_of_type(ty: Option<Ty>, xs: &[Scalar]) -> bool
    ensures { result ≡ list_all (λ x. typed.same_type ty (Some (typed.scalar_type x))) xs.now }
{
    for x in xs {
        if !same_type(ty, Some(scalar_type(x))) {
            return false;
        }
    }
    true
}

// A type, and that of all of these.
fn is_of_all(ty: Option<Ty>, xs: &[Scalar]) -> bool
    ensures { result ≡ spec.is_of_all ty xs.now }
{
    ty.is_some() && are_of_type(ty, xs)
}

fn known_list(entry: &Entry, q: u32) -> &[Scalar]
    ensures { result.now ≡ get_or entry.now.known q [] }
{
    match entry.known.as_slice().get(q as usize) {
        Some(list) => list.as_slice(),
        None => &[],
    }
}

// An atom fits at the rows of its loops: at the first ones, where there are any.
fn test_fits(db: &Db, frag: &KFragment, entry: &Entry, a: &Atom) -> bool
    ensures { result ≡ spec.test_fits (fragment_of frag.now) db.now entry.now a.now }
{
    match a {
        Atom::Less(x, y) => {
            is_never_read(db, frag, x)
                || is_never_read(db, frag, y)
                || are_ordered(
                    operand_type(db, frag, entry, x),
                    operand_type(db, frag, entry, y),
                )
        }
        Atom::Same(x, y) => {
            is_never_read(db, frag, x)
                || is_never_read(db, frag, y)
                || same_type(
                    operand_type(db, frag, entry, x),
                    operand_type(db, frag, entry, y),
                )
        }
        Atom::Truth(x) => {
            is_never_read(db, frag, x)
                || same_type(Some(Ty::Bool), operand_type(db, frag, entry, x))
        }
        Atom::Member(x, q) => {
            is_never_read(db, frag, x)
                || is_of_all(operand_type(db, frag, entry, x), known_list(entry, *q))
        }
        Atom::Flag(_, _) => true,
    }
}

fn tests_fit(db: &Db, frag: &KFragment, entry: &Entry, atoms: &[Atom]) -> bool
    ensures { result ≡ list_all (spec.test_fits (fragment_of frag.now) db.now entry.now) atoms.now }
{
    match atoms.split_first() {
        None => true,
        Some((a, rest)) => test_fits(db, frag, entry, a) && tests_fit(db, frag, entry, rest),
    }
}

fn number_fits(db: &Db, frag: &KFragment, j: usize, c: u32) -> bool
    ensures { result ≡ spec.number_fits (fragment_of frag.now) db.now (j, c) }
{
    has_no_row(db, frag, j) || same_type(Some(Ty::Long), place_type(db, frag, j, c))
}

fn update_fits(db: &Db, frag: &KFragment, update: Update) -> bool
    ensures { result ≡ spec.update_fits (fragment_of frag.now) db.now update }
{
    match update {
        Update::Plus(Elem::Field(j, c)) => number_fits(db, frag, j as usize, c),
        Update::Best(_, Elem::Field(j, c)) => number_fits(db, frag, j as usize, c),
        _ => true,
    }
}

fn updates_fit(db: &Db, frag: &KFragment, accs: &[Acc]) -> bool
    ensures { result ≡ list_all (λ a. spec.update_fits (fragment_of frag.now) db.now a.update) (map accumulator accs.now) }
{
    match accs.split_first() {
        None => true,
        Some((acc, rest)) => update_fits(db, frag, acc.update) && updates_fit(db, frag, rest),
    }
}

fn tables_are_there(db: &Db, lists: &[ListDef]) -> bool
    ensures { result ≡ list_all (spec.table_is_there db.now) lists.now }
{
    match lists.split_first() {
        None => true,
        Some((list, rest)) => db.rows(list.table).is_some() && tables_are_there(db, rest),
    }
}

// All but the known lists and the entry values.
fn rest_fits(db: &Db, frag: &KFragment, entry: &Entry) -> bool
    ensures { result ≡ spec.rest_fits (fragment_of frag.now) db.now entry.now }
{
    tables_are_there(db, frag.lists.as_slice())
        && tests_fit(db, frag, entry, frag.atoms.as_slice())
        && updates_fit(db, frag, frag.accs.as_slice())
        && columns_fit(db, frag)
}

// Each number of the code has 64 bits.
fn is_long(n: i64) -> bool
    ensures { result ≡ fits_long n }
{
    true
}

fn has_type(ty: Ty, x: &Scalar) -> bool
    ensures { IsTrue result ↔ HasTy ty x.now }
{
    match (ty, x) {
        (Ty::Long, Scalar::Long(n)) => is_long(*n),
        (Ty::Bool, Scalar::Bool(_)) => true,
        (Ty::Text, Scalar::Text(_)) => true,
        _ => false,
    }
}

fn have_types(types: &[Ty], xs: &[Scalar]) -> bool
    ensures { IsTrue result ↔ AreOf types.now xs.now }
{
    match types.split_first() {
        None => xs.is_empty(),
        Some((ty, others)) => match xs.split_first() {
            None => false,
            Some((x, rest)) => has_type(*ty, x) && have_types(others, rest),
        },
    }
}

/// Whether the parts of a fragment fit a database, entry values and known lists: its tables and columns are there, and so are entry values of
/// its types and as many known lists, and at the rows of its loops' lists each atom's operands are of the types that it asks for. It looks at
/// one row of each list, and at the columns that are named. It takes no memory.
pub fn parts_fit(frag: &KFragment, db: &Db, entry: &Entry) -> bool
    ensures { IsTrue result ↔ fitting.PartsFit (fragment_of frag.now) db.now entry.now }
{
    if entry.known.len() != frag.known as usize {
        return false;
    }
    if !have_types(frag.entries.as_slice(), entry.values.as_slice()) {
        return false;
    }
    rest_fits(db, frag, entry)
}
