// The canonical text of a program.
ghost use Rattle.std.specs.Prelude.{◌≡◌, ◌++◌, ◌≤◌, OnOk, IfOk, string_bytes, codes, map, false};
ghost use Rattle.std.specs.List.{flat_map};
ghost use Rattle.std.specs.Option.{option_map};
ghost use Rattle.java_ast.specs.Reading.{spelled, expression, expressions, statement, statements, param, method, program as plain_program};
ghost use Rattle.qbs_base.specs.Literal.{text_literal};
ghost use Rattle.java_text.specs.Canonical.{line_end, indent, separated, canonical_type, rank_of, operator_text, opening, closing, canonical_expression, canonical_arguments, first_or_false, reversed_text, comparing_text, canonical_key, canonical_keys, braced, returned_text, declared_text, walked_text, tested_text, canonical_statement, canonical_statements, access_text, word_if, result_text, canonical_param, modifiers_text, named_text, head_text, canonical_method, package_text, import_text, imports_text, class_text, canonical};

use crate::literals::put_literal;
use java_ast::{Access, Expr, ExprNode, JTy, Method, Op, Param, Program, Stmt, StmtNode};
use java_ranks::behind_not;
use qbs_base::{Name, NoMemory, Text, push_text_literal};
use std::alloc::{AllocError, Global};

fn put_type(out: &mut String, ty: &JTy) -> Result<(), AllocError>
    ensures { OnOk result (string_bytes out.new ≡ string_bytes out.old ++ canonical_type (spelled ty.now)) }
{
    match ty {
        JTy::Int => out.push_str("int"),
        JTy::Long => out.push_str("long"),
        JTy::Boolean => out.push_str("boolean"),
        JTy::String => out.push_str("String"),
        JTy::BoxedInteger => out.push_str("Integer"),
        JTy::BoxedLong => out.push_str("Long"),
        JTy::BoxedBoolean => out.push_str("Boolean"),
        JTy::Table(name) => out.push_str(name.as_str()),
        JTy::List(element) => {
            out.push_str("List<")?;
            put_type(out, element)?;
            out.push_str(">")
        }
        JTy::Set(element) => {
            out.push_str("Set<")?;
            put_type(out, element)?;
            out.push_str(">")
        }
    }
}

fn rank(op: Op) -> u32
    ensures value { result ≡ rank_of op }
    ensures binary { 1 ≤ result }
{
    match op {
        Op::Mul => 3,
        Op::Add | Op::Sub => 4,
        Op::Lt | Op::Le | Op::Gt | Op::Ge => 5,
        Op::Eq | Op::Ne => 6,
        Op::And => 7,
        Op::Or => 8,
    }
}

fn operator(op: Op) -> &'static str
    ensures { result.now ≡ operator_text op }
{
    match op {
        Op::Mul => " * ",
        Op::Add => " + ",
        Op::Sub => " - ",
        Op::Lt => " < ",
        Op::Le => " <= ",
        Op::Gt => " > ",
        Op::Ge => " >= ",
        Op::Eq => " == ",
        Op::Ne => " != ",
        Op::And => " && ",
        Op::Or => " || ",
    }
}

fn open_unless(out: &mut String, tight: bool) -> Result<(), AllocError>
    ensures { OnOk result (string_bytes out.new ≡ string_bytes out.old ++ opening tight) }
{
    if tight { Ok(()) } else { out.push_str("(") }
}

fn close_unless(out: &mut String, tight: bool) -> Result<(), AllocError>
    ensures { OnOk result (string_bytes out.new ≡ string_bytes out.old ++ closing tight) }
{
    if tight { Ok(()) } else { out.push_str(")") }
}

fn put_close(out: &mut String) -> Result<(), AllocError>
    ensures { OnOk result (string_bytes out.new ≡ string_bytes out.old ++ codes ")") }
{
    out.push_str(")")
}

/// A query up to its arguments.
fn put_query(out: &mut String, element: &JTy, text: &Text) -> Result<(), AllocError>
    ensures { OnOk result (
        string_bytes out.new
        ≡ string_bytes out.old ++ (codes "db.query(" ++ canonical_type (spelled element.now) ++ codes ".class, " ++ text_literal text.now)) }
{
    out.push_str("db.query(")?;
    put_type(out, element)?;
    out.push_str(".class, ")?;
    push_text_literal(out, text)
}

fn put_query_long(out: &mut String, text: &Text) -> Result<(), AllocError>
    ensures { OnOk result (string_bytes out.new ≡ string_bytes out.old ++ (codes "db.queryLong(" ++ text_literal text.now)) }
{
    out.push_str("db.queryLong(")?;
    push_text_literal(out, text)
}

fn put_query_boolean(out: &mut String, text: &Text) -> Result<(), AllocError>
    ensures { OnOk result (string_bytes out.new ≡ string_bytes out.old ++ (codes "db.queryBoolean(" ++ text_literal text.now)) }
{
    out.push_str("db.queryBoolean(")?;
    push_text_literal(out, text)
}

fn put_new_list(out: &mut String) -> Result<(), AllocError>
    ensures { OnOk result (string_bytes out.new ≡ string_bytes out.old ++ codes "new ArrayList<>()") }
{
    out.push_str("new ArrayList<>()")
}

fn put_new_set(out: &mut String) -> Result<(), AllocError>
    ensures { OnOk result (string_bytes out.new ≡ string_bytes out.old ++ codes "new LinkedHashSet<>()") }
{
    out.push_str("new LinkedHashSet<>()")
}

fn put_new_set_of(out: &mut String) -> Result<(), AllocError>
    ensures { OnOk result (string_bytes out.new ≡ string_bytes out.old ++ codes "new LinkedHashSet<>(") }
{
    out.push_str("new LinkedHashSet<>(")
}

/// Where expressions up to rank `most` stand without parentheses.
#[cycle(expression_text)]
fn put_expression(out: &mut String, most: u32, e: &Expr) -> Result<(), AllocError>
    ensures { OnOk result (string_bytes out.new ≡ string_bytes out.old ++ canonical_expression most (expression e.now)) }
{
    match &e.node {
        ExprNode::Lit(value) => put_literal(out, value),
        ExprNode::Var(name) => out.push_str(name.as_str()),
        ExprNode::Field(row, name) => {
            put_expression(out, 1, row)?;
            out.push_str(".")?;
            out.push_str(name.as_str())
        }
        ExprNode::Binary(op, a, b) => {
            let own = rank(*op);
            open_unless(out, own <= most)?;
            put_expression(out, own, a)?;
            out.push_str(operator(*op))?;
            put_expression(out, own - 1, b)?;
            close_unless(out, own <= most)
        }
        ExprNode::Not(inner) => {
            open_unless(out, 2 <= most)?;
            out.push_str("!")?;
            put_expression(out, behind_not(), inner)?;
            close_unless(out, 2 <= most)
        }
        ExprNode::Equals(a, b) => {
            put_expression(out, 1, a)?;
            out.push_str(".equals(")?;
            put_expression(out, 8, b)?;
            out.push_str(")")
        }
        ExprNode::Size(name) => {
            out.push_str(name.as_str())?;
            out.push_str(".size()")
        }
        ExprNode::Get(name, place) => {
            out.push_str(name.as_str())?;
            out.push_str(".get(")?;
            put_expression(out, 8, place)?;
            out.push_str(")")
        }
        ExprNode::Contains(name, member) => {
            out.push_str(name.as_str())?;
            out.push_str(".contains(")?;
            put_expression(out, 8, member)?;
            out.push_str(")")
        }
        ExprNode::Fetch(table) => {
            out.push_str("db.fetch(")?;
            out.push_str(table.as_str())?;
            out.push_str(".class)")
        }
        ExprNode::Query(element, text, arguments) => {
            put_query(out, element, text)?;
            put_arguments(out, arguments)?;
            put_close(out)
        }
        ExprNode::QueryLong(text, arguments) => {
            put_query_long(out, text)?;
            put_arguments(out, arguments)?;
            put_close(out)
        }
        ExprNode::QueryBoolean(text, arguments) => {
            put_query_boolean(out, text)?;
            put_arguments(out, arguments)?;
            put_close(out)
        }
        ExprNode::NewList => put_new_list(out),
        ExprNode::NewSet(query) => match query {
            None => put_new_set(out),
            Some(query) => {
                put_new_set_of(out)?;
                put_expression(out, 8, query)?;
                put_close(out)
            }
        },
    }
}

#[cycle(expression_text)]
fn put_arguments(out: &mut String, arguments: &[Expr]) -> Result<(), AllocError>
    ensures { OnOk result (string_bytes out.new ≡ string_bytes out.old ++ canonical_arguments (expressions arguments.now)) }
{
    for argument in arguments {
        out.push_str(", ")?;
        put_expression(out, 8, argument)?;
    }
    Ok(())
}

fn put_reversed(out: &mut String, down: bool, next: bool) -> Result<(), AllocError>
    ensures { OnOk result (string_bytes out.new ≡ string_bytes out.old ++ reversed_text down next) }
{
    if down == next {
        Ok(())
    } else {
        out.push_str(".reversed()")
    }
}

fn put_key(out: &mut String, further: bool, key: &Name) -> Result<(), AllocError>
    ensures { OnOk result (string_bytes out.new ≡ string_bytes out.old ++ canonical_key further key.now) }
{
    put_comparing(out, further)?;
    out.push_str("(x -> x.")?;
    out.push_str(key.as_str())?;
    out.push_str(")")
}

fn put_comparing(out: &mut String, further: bool) -> Result<(), AllocError>
    ensures { OnOk result (string_bytes out.new ≡ string_bytes out.old ++ comparing_text further) }
{
    if further {
        out.push_str(".thenComparing")
    } else {
        out.push_str("Comparator.comparing")
    }
}

fn is_first_down(downs: &[bool]) -> bool
    ensures { result ≡ first_or_false downs.now }
{
    match downs {
        [] => false,
        [first, ..] => *first,
    }
}

fn put_keys(out: &mut String, keys: &[Name], downs: &[bool]) -> Result<(), AllocError>
    ensures { OnOk result (string_bytes out.new ≡ string_bytes out.old ++ canonical_keys false keys.now downs.now) }
{
    let mut further = false;
    let mut rest = downs;
    for key in keys {
        let Some((down, later)) = rest.split_first() else {
            break;
        };
        put_key(out, further, key)?;
        put_reversed(out, *down, is_first_down(later))?;
        further = true;
        rest = later;
    }
    Ok(())
}

/// The end of a simple statement.
fn put_end(out: &mut String) -> Result<(), AllocError>
    ensures { OnOk result (string_bytes out.new ≡ string_bytes out.old ++ (codes ";" ++ line_end)) }
{
    out.push_str(";\n")
}

fn put_line_end(out: &mut String) -> Result<(), AllocError>
    ensures { OnOk result (string_bytes out.new ≡ string_bytes out.old ++ line_end) }
{
    out.push_str("\n")
}

fn put_else(out: &mut String) -> Result<(), AllocError>
    ensures { OnOk result (string_bytes out.new ≡ string_bytes out.old ++ codes " else") }
{
    out.push_str(" else")
}

/// The begin of a body, up to the end of its first line.
fn put_open(out: &mut String) -> Result<(), AllocError>
    ensures { OnOk result (string_bytes out.new ≡ string_bytes out.old ++ (codes " {" ++ line_end)) }
{
    out.push_str(" {\n")
}

/// The closing brace of a body.
fn put_brace(out: &mut String, margin: &str) -> Result<(), AllocError>
    ensures { OnOk result (string_bytes out.new ≡ string_bytes out.old ++ margin.now ++ codes "}") }
{
    out.push_str(margin)?;
    out.push_str("}")
}

/// The margin of a level further in.
fn deeper(alloc: Global, margin: &str) -> Result<String, AllocError>
    ensures { IfOk result (λ s. string_bytes s ≡ margin.now ++ indent) }
{
    let mut inner = String::from_str(alloc, margin)?;
    inner.push_str("    ")?;
    Ok(inner)
}

fn put_declare(out: &mut String, ty: &JTy, name: &Name, value: &Expr) -> Result<(), AllocError>
    ensures { OnOk result (string_bytes out.new ≡ string_bytes out.old ++ declared_text (spelled ty.now) name.now (expression value.now)) }
{
    put_type(out, ty)?;
    out.push_str(" ")?;
    out.push_str(name.as_str())?;
    out.push_str(" = ")?;
    put_expression(out, 8, value)
}

fn put_assign(out: &mut String, name: &Name, value: &Expr) -> Result<(), AllocError>
    ensures { OnOk result (string_bytes out.new ≡ string_bytes out.old ++ (name.now ++ codes " = " ++ canonical_expression 8 (expression value.now))) }
{
    out.push_str(name.as_str())?;
    out.push_str(" = ")?;
    put_expression(out, 8, value)
}

fn put_add(out: &mut String, name: &Name, value: &Expr) -> Result<(), AllocError>
    ensures { OnOk result (string_bytes out.new ≡ string_bytes out.old ++ (name.now ++ codes ".add(" ++ canonical_expression 8 (expression value.now) ++ codes ")")) }
{
    out.push_str(name.as_str())?;
    out.push_str(".add(")?;
    put_expression(out, 8, value)?;
    out.push_str(")")
}

fn put_sort(out: &mut String, name: &Name, keys: &[Name], downs: &[bool]) -> Result<(), AllocError>
    ensures { OnOk result (string_bytes out.new ≡ string_bytes out.old ++ (name.now ++ codes ".sort(" ++ canonical_keys false keys.now downs.now ++ codes ")")) }
{
    out.push_str(name.as_str())?;
    out.push_str(".sort(")?;
    put_keys(out, keys, downs)?;
    out.push_str(")")
}

fn put_return(out: &mut String, value: &Option<Expr>) -> Result<(), AllocError>
    ensures { OnOk result (string_bytes out.new ≡ string_bytes out.old ++ returned_text (option_map expression value.now)) }
{
    match value {
        None => out.push_str("return"),
        Some(value) => {
            out.push_str("return ")?;
            put_expression(out, 8, value)
        }
    }
}

fn put_break(out: &mut String) -> Result<(), AllocError>
    ensures { OnOk result (string_bytes out.new ≡ string_bytes out.old ++ codes "break") }
{
    out.push_str("break")
}

/// What stands in parentheses behind `if (`, `while (` or `System.out.println(`.
fn put_tested(out: &mut String, word: &str, cond: &Expr) -> Result<(), AllocError>
    ensures { OnOk result (string_bytes out.new ≡ string_bytes out.old ++ tested_text word.now (expression cond.now)) }
{
    out.push_str(word)?;
    put_expression(out, 8, cond)?;
    out.push_str(")")
}

fn put_for(out: &mut String, ty: &JTy, name: &Name, list: &Expr) -> Result<(), AllocError>
    ensures { OnOk result (string_bytes out.new ≡ string_bytes out.old ++ walked_text (spelled ty.now) name.now (expression list.now)) }
{
    out.push_str("for (")?;
    put_type(out, ty)?;
    out.push_str(" ")?;
    out.push_str(name.as_str())?;
    out.push_str(" : ")?;
    put_expression(out, 8, list)?;
    out.push_str(")")
}

#[cycle(statement_text)]
fn put_statement(alloc: Global, out: &mut String, margin: &str, s: &Stmt) -> Result<(), AllocError>
    ensures { OnOk result (string_bytes out.new ≡ string_bytes out.old ++ canonical_statement margin.now (statement s.now)) }
{
    out.push_str(margin)?;
    match &s.node {
        StmtNode::Declare { ty, name, value } => {
            put_declare(out, ty, name, value)?;
            put_end(out)
        }
        StmtNode::Assign { name, value } => {
            put_assign(out, name, value)?;
            put_end(out)
        }
        StmtNode::Add { name, value } => {
            put_add(out, name, value)?;
            put_end(out)
        }
        StmtNode::Sort { name, keys, down } => {
            put_sort(out, name, keys.as_slice(), down.as_slice())?;
            put_end(out)
        }
        StmtNode::If { cond, yes, other } => {
            put_tested(out, "if (", cond)?;
            put_block(alloc, out, margin, yes)?;
            match other {
                None => put_line_end(out),
                Some(other) => {
                    put_else(out)?;
                    put_block(alloc, out, margin, other)?;
                    put_line_end(out)
                }
            }
        }
        StmtNode::ForEach {
            ty,
            name,
            list,
            body,
        } => {
            put_for(out, ty, name, list)?;
            put_block(alloc, out, margin, body)?;
            put_line_end(out)
        }
        StmtNode::While { cond, body } => {
            put_tested(out, "while (", cond)?;
            put_block(alloc, out, margin, body)?;
            put_line_end(out)
        }
        StmtNode::Print { value } => {
            put_tested(out, "System.out.println(", value)?;
            put_end(out)
        }
        StmtNode::Return { value } => {
            put_return(out, value)?;
            put_end(out)
        }
        StmtNode::Break => {
            put_break(out)?;
            put_end(out)
        }
    }
}

/// The statements in braces, a level further in than the margin.
#[cycle(statement_text)]
fn put_block(alloc: Global, out: &mut String, margin: &str, body: &[Stmt]) -> Result<(), AllocError>
    ensures { OnOk result (string_bytes out.new ≡ string_bytes out.old ++ braced margin.now (canonical_statements (margin.now ++ indent) (statements body.now))) }
{
    let inner = deeper(alloc, margin)?;
    put_open(out)?;
    put_statements(alloc, out, inner.as_str(), body)?;
    put_brace(out, margin)
}

#[cycle(statement_text)]
fn put_statements(
    alloc: Global,
    out: &mut String,
    margin: &str,
    body: &[Stmt],
) -> Result<(), AllocError>
    ensures { OnOk result (string_bytes out.new ≡ string_bytes out.old ++ canonical_statements margin.now (statements body.now)) }
{
    for s in body {
        put_statement(alloc, out, margin, s)?;
    }
    Ok(())
}

fn put_access(out: &mut String, access: Access) -> Result<(), AllocError>
    ensures { OnOk result (string_bytes out.new ≡ string_bytes out.old ++ access_text access) }
{
    match access {
        Access::Plain => Ok(()),
        Access::Public => out.push_str("public "),
        Access::Private => out.push_str("private "),
    }
}

fn put_word_if(out: &mut String, is_there: bool, word: &str) -> Result<(), AllocError>
    ensures { OnOk result (string_bytes out.new ≡ string_bytes out.old ++ word_if is_there word.now) }
{
    if is_there { out.push_str(word) } else { Ok(()) }
}

fn put_result(out: &mut String, ty: &Option<JTy>) -> Result<(), AllocError>
    ensures { OnOk result (string_bytes out.new ≡ string_bytes out.old ++ result_text (option_map spelled ty.now)) }
{
    match ty {
        None => out.push_str("void"),
        Some(ty) => put_type(out, ty),
    }
}

fn put_param(out: &mut String, p: &Param) -> Result<(), AllocError>
    ensures { OnOk result (string_bytes out.new ≡ string_bytes out.old ++ canonical_param (param p.now)) }
{
    put_type(out, &p.ty)?;
    out.push_str(" ")?;
    out.push_str(p.name.as_str())
}

fn put_params(out: &mut String, params: &[Param]) -> Result<(), AllocError>
    ensures { OnOk result (string_bytes out.new ≡ string_bytes out.old ++ separated (codes ", ") canonical_param (map param params.now)) }
{
    let Some((first, further)) = params.split_first() else {
        return Ok(());
    };
    put_param(out, first)?;
    for p in further {
        out.push_str(", ")?;
        put_param(out, p)?;
    }
    Ok(())
}

fn put_modifiers(out: &mut String, access: Access, fixed: bool) -> Result<(), AllocError>
    ensures { OnOk result (string_bytes out.new ≡ string_bytes out.old ++ modifiers_text access fixed) }
{
    put_access(out, access)?;
    put_word_if(out, fixed, "static ")
}

fn put_named(out: &mut String, result_ty: &Option<JTy>, name: &Name) -> Result<(), AllocError>
    ensures { OnOk result (string_bytes out.new ≡ string_bytes out.old ++ named_text (option_map spelled result_ty.now) name.now) }
{
    put_result(out, result_ty)?;
    out.push_str(" ")?;
    out.push_str(name.as_str())
}

/// A method up to its parameters' closing parenthesis.
fn put_head(out: &mut String, m: &Method) -> Result<(), AllocError>
    ensures { OnOk result (string_bytes out.new ≡ string_bytes out.old ++ head_text (method m.now)) }
{
    out.push_str("    ")?;
    put_modifiers(out, m.access, m.fixed)?;
    put_named(out, &m.result, &m.name)?;
    out.push_str("(")?;
    put_params(out, m.params.as_slice())?;
    out.push_str(")")
}

fn put_method(alloc: Global, out: &mut String, m: &Method) -> Result<(), AllocError>
    ensures { OnOk result (string_bytes out.new ≡ string_bytes out.old ++ canonical_method (method m.now)) }
{
    put_head(out, m)?;
    put_block(alloc, out, "    ", m.body.as_slice())?;
    put_line_end(out)
}

fn put_methods(alloc: Global, out: &mut String, methods: &[Method]) -> Result<(), AllocError>
    ensures { OnOk result (string_bytes out.new ≡ string_bytes out.old ++ separated line_end canonical_method (map method methods.now)) }
{
    let Some((first, further)) = methods.split_first() else {
        return Ok(());
    };
    put_method(alloc, out, first)?;
    for m in further {
        put_line_end(out)?;
        put_method(alloc, out, m)?;
    }
    Ok(())
}

fn put_package(out: &mut String, name: &Option<Text>) -> Result<(), AllocError>
    ensures { OnOk result (string_bytes out.new ≡ string_bytes out.old ++ package_text name.now) }
{
    match name {
        None => Ok(()),
        Some(name) => {
            out.push_str("package ")?;
            out.push_str(name.as_str())?;
            out.push_str(";\n\n")
        }
    }
}

fn put_import(out: &mut String, name: &Text) -> Result<(), AllocError>
    ensures { OnOk result (string_bytes out.new ≡ string_bytes out.old ++ import_text name.now) }
{
    out.push_str("import ")?;
    out.push_str(name.as_str())?;
    out.push_str(";\n")
}

fn put_imports(out: &mut String, names: &[Text]) -> Result<(), AllocError>
    ensures { OnOk result (string_bytes out.new ≡ string_bytes out.old ++ imports_text names.now) }
{
    for name in names {
        put_import(out, name)?;
    }
    match names {
        [] => Ok(()),
        [_, ..] => put_line_end(out),
    }
}

/// The class up to its methods.
fn put_class(out: &mut String, public: bool, name: &Name) -> Result<(), AllocError>
    ensures { OnOk result (string_bytes out.new ≡ string_bytes out.old ++ class_text public name.now) }
{
    put_word_if(out, public, "public ")?;
    out.push_str("class ")?;
    out.push_str(name.as_str())?;
    out.push_str(" {\n")
}

fn put_program(alloc: Global, out: &mut String, program: &Program) -> Result<(), AllocError>
    ensures { OnOk result (string_bytes out.new ≡ string_bytes out.old ++ canonical (plain_program program.now)) }
{
    put_package(out, &program.package)?;
    put_imports(out, program.imports.as_slice())?;
    put_class(out, program.public, &program.name)?;
    put_methods(alloc, out, program.methods.as_slice())?;
    out.push_str("}\n")
}

/// The canonical text of a program: its class with a statement a line, four spaces a level, braces
/// round every body, and parentheses only where precedence asks for them.
pub fn print_program(alloc: Global, program: &Program) -> Result<Text, NoMemory>
    ensures { IfOk result (λ text. text ≡ canonical (plain_program program.now)) }
{
    let mut out = String::new(alloc);
    put_program(alloc, &mut out, program)?;
    Ok(Text::from_string(out))
}

/// The canonical lines of statements behind a margin, each with its line end.
pub fn print_statements(alloc: Global, margin: &str, block: &[Stmt]) -> Result<Text, NoMemory>
    ensures { IfOk result (λ text. text ≡ canonical_statements margin.now (statements block.now)) }
{
    let mut out = String::new(alloc);
    put_statements(alloc, &mut out, margin, block)?;
    Ok(Text::from_string(out))
}
