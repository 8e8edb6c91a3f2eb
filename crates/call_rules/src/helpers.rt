// The methods of a class by their names, and what is asked of each as a helper.
ghost use Rattle.std.specs.Prelude.{◌≡◌, ◌++◌, ◌∷◌, IfOk, OnOk, [], map, List, ℕ, None};
ghost use Rattle.std.specs.Option.{option_map};
ghost use Rattle.java_ast.specs.Reading.{method as plain_method, expressions, statement, spelled};
ghost use Rattle.java_calls.specs.Rules.{number_named, may_take as may_take_of, may_take_from as may_take_from_of, how_many as how_many_of, returns_at_its_end};
ghost use Rattle.call_rules.specs.Noted.{number_at, numbered_in, broken_by, broken_of};
ghost use Rattle.java_calls.specs.Called.{method_at};

use crate::HelperRule;
use crate::kinds::{ends_well, is_one_type, is_scalar, is_unreadable};
use indexmap::IndexMap;
use java_ast::{Expr, JTy, Method, Stmt, StmtNode};
use qbs_base::{Bools, Name, NoMemory};
use std::alloc::Global;
use std::marker::Model;

/// Numbers under names, of which the first one stays. A look-up takes one hash.
#[derive(Drop)]
pub struct Numbered<'a> {
    numbers: IndexMap<&'a [u8], usize>,
}

impl<'a> Model for Numbered<'a> {
    ghost use Rattle.std.specs.Prelude.{List, ℕ, map};

    ghost Value = { List (List ℕ × ℕ) };

    ghost view = { λ s. map (λ p. (p.0.now, p.1)) s.numbers.entries };
}

impl<'a> Numbered<'a> {
    /// No numbers.
    pub fn new(alloc: Global) -> Numbered<'a>
        ensures { result ≡ [] }
    {
        Numbered {
            numbers: IndexMap::new(alloc),
        }
    }

    /// The number under a name.
    pub fn of(&self, name: &Name) -> Option<usize>
        ensures { result ≡ number_at self.now name.now }
    {
        match self.numbers.get(name.as_slice()) {
            Some(number) => Some(*number),
            None => None,
        }
    }

    fn insert(&mut self, name: &'a Name, number: usize) -> Result<(), NoMemory>
        requires { number_at self.old name.now ≡ None }
        ensures { OnOk result (self.new ≡ self.old ++ (name.now, number) ∷ []) }
    {
        match self.numbers.insert(name.as_slice(), number) {
            Ok(_) => Ok(()),
            Err(_) => Err(NoMemory),
        }
    }

    /// Puts a number under a name, where there is none.
    pub fn note(&mut self, name: &'a Name, number: usize) -> Result<(), NoMemory>
        ensures { OnOk result (self.new ≡ numbered_in self.old name.now number) }
    {
        match self.of(name) {
            None => self.insert(name, number),
            Some(_) => Ok(()),
        }
    }
}

/// The methods of a class, as which contracts see it, with their numbers by name.
#[derive(Drop)]
pub struct Helpers<'a> {
    methods: &'a [Method],
    numbers: Numbered<'a>,
    ends: Bools,
}

impl<'a> Model for Helpers<'a> {
    ghost use Rattle.std.specs.Prelude.{List, map};
    ghost use Rattle.std.specs.Coded.{codes};
    ghost use Rattle.java_ast.specs.declared.tree.Method.{Method};
    ghost use Rattle.java_ast.specs.contracts.tree.StmtNode as statements;
    ghost use Rattle.java_ast.specs.contracts.tree.ExprNode as expressions;
    ghost use Rattle.java_ast.specs.contracts.tree.JTy as types;
    ghost use Rattle.java_ast.specs.Reading.{method as plain_method};
    ghost use Rattle.call_rules.specs.Noted.{AreTabled};

    ghost Value = { List Method };

    ghost coded = { Prim.hlevel (codes, statements.the_row.coded, expressions.the_row.coded, types.the_row.coded) };

    ghost view = { λ s. s.methods.now };

    ghost invariant = { λ s. AreTabled s.numbers s.ends (map plain_method s.methods.now) };
}

/// The numbers of methods by name: of each name that of its first method.
#[tactic(auto, using(crate::proofs::Numbers::numbers))]
pub fn numbers_of<'a>(alloc: Global, methods: &'a [Method]) -> Result<Numbered<'a>, NoMemory>
    ensures { IfOk result (λ n. (x : List ℕ) → number_at n x ≡ number_named (map plain_method methods.now) x) }
{
    let mut numbers = Numbered::new(alloc);
    for (i, m) in methods.iter().enumerate() {
        numbers.note(&m.name, i)?;
    }
    Ok(numbers)
}

fn ends_of(alloc: Global, methods: &[Method]) -> Result<Bools, NoMemory>
    ensures { IfOk result (λ ends. ends ≡ map returns_at_its_end (map plain_method methods.now)) }
{
    let mut ends = Bools::new(alloc);
    for m in methods {
        ends.push(ends_well(m.body.as_slice()))?;
    }
    Ok(ends)
}

/// Whether a statement may take a result of this type.
fn may_take(ty: &JTy, s: &Stmt) -> bool
    ensures { result ≡ may_take_of (spelled ty.now) (statement s.now) }
{
    match &s.node {
        StmtNode::Declare {
            ty: declared,
            name,
            value: _,
        } => is_one_type(ty, declared) && (is_scalar(ty) || !is_unreadable(name)),
        StmtNode::Assign { name: _, value: _ } => is_scalar(ty),
        _ => false,
    }
}

fn may_take_from(given: &Option<JTy>, whole: Option<&Stmt>) -> bool
    ensures { result ≡ may_take_from_of (option_map spelled given.now) (option_map (λ s. statement s.now) whole.entry) }
{
    match given {
        None => false,
        Some(ty) => match whole {
            None => false,
            Some(s) => may_take(ty, s),
        },
    }
}

#[tactic(auto, using(crate::proofs::Counted::how_many_is))]
fn how_many(arguments: &[Expr]) -> usize
    ensures { result ≡ how_many_of (expressions arguments.now) }
{
    arguments.len()
}

/// The least of the rules on a call of a method, which ends well or not, that a call breaks.
fn broken_rule(
    m: &Method,
    ends: bool,
    arguments: &[Expr],
    whole: Option<&Stmt>,
) -> Option<HelperRule>
    ensures { result ≡ broken_by (plain_method m.now) ends (expressions arguments.now) (option_map (λ s. statement s.now) whole.entry) }
{
    if how_many(arguments) != m.params.len() {
        return Some(HelperRule::Arguments);
    }
    if ends && may_take_from(&m.result, whole) {
        None
    } else {
        Some(HelperRule::Result)
    }
}

impl<'a> Helpers<'a> {
    /// The methods of a class.
    pub fn new(alloc: Global, methods: &'a [Method]) -> Result<Helpers<'a>, NoMemory>
        ensures { IfOk result (λ h. h ≡ methods.now) }
    {
        let numbers = numbers_of(alloc, methods)?;
        let ends = ends_of(alloc, methods)?;
        Ok(Helpers {
            methods,
            numbers,
            ends,
        })
    }

    /// The number of the first method of a name.
    pub fn number(&self, name: &Name) -> Option<usize>
        ensures { result ≡ number_named (map plain_method self.now) name.now }
    {
        self.numbers.of(name)
    }

    /// The least of the rules on a call by itself that a call of the method with this number breaks.
    pub fn broken_at(
        &self,
        number: Option<usize>,
        arguments: &[Expr],
        whole: Option<&Stmt>,
    ) -> Option<HelperRule>
        ensures { result ≡ broken_of (method_at (map plain_method self.now) number) (expressions arguments.now) (option_map (λ s. statement s.now) whole.entry) }
    {
        let Some(number) = number else {
            return Some(HelperRule::NoMethod);
        };
        let Some(m) = self.methods.get(number) else {
            return Some(HelperRule::NoMethod);
        };
        let Some(ends) = self.ends.as_slice().get(number) else {
            return Some(HelperRule::NoMethod);
        };
        broken_rule(m, *ends, arguments, whole)
    }
}
