// What single words and signs are.
ghost use Rattle.std.specs.Prelude.{◌≡◌, option_map, IfOk};
ghost use Rattle.java_ast.specs.Reading.{spelled};
ghost use Rattle.java_grammar.specs.Words.{is_name as may_be_name, is_table as may_be_table, is_number_type as names_numbers, is_variable as may_be_variable, scalar_type as scalar_of, table_type as table_of, word_type as type_of_word, element_type as element_of, collection as collection_of_word, collection_of, truth_of as truth_of_word, operator_of as operator_of_sign};

use java_ast::{JTy, Op};
use java_words::{is_among, is_reserved_word, is_type_word};
use qbs_base::{Name, Scalar};
use std::alloc::{AllocError, Global};

/// The names of numbers, which are no variables in expressions.
const NUMBER_TYPES: [&str; 2] = ["Long", "Integer"];

/// Whether a word is a name.
pub fn is_name(word: &str) -> bool
    ensures { result ≡ may_be_name word.now }
{
    !is_reserved_word(word)
}

/// Whether a word may name a table.
pub fn is_table(word: &str) -> bool
    ensures { result ≡ may_be_table word.now }
{
    is_name(word) && !is_type_word(word)
}

/// Whether a word is Long or Integer.
pub fn is_number_type(word: &str) -> bool
    ensures { result ≡ names_numbers word.now }
{
    is_among(word, &NUMBER_TYPES)
}

/// Whether a word may stand for a variable in an expression.
pub fn is_variable(word: &str) -> bool
    ensures { result ≡ may_be_variable word.now }
{
    is_name(word) && !is_number_type(word)
}

/// The scalar type of this name.
pub fn scalar_type(word: &str) -> Option<JTy>
    ensures { option_map spelled result ≡ scalar_of word.now }
{
    if word == "int" {
        Some(JTy::Int)
    } else if word == "long" {
        Some(JTy::Long)
    } else if word == "boolean" {
        Some(JTy::Boolean)
    } else if word == "String" {
        Some(JTy::String)
    } else {
        None
    }
}

/// The type of a table's rows, where the word may name a table.
fn table_type(word: &Name) -> Result<Option<JTy>, AllocError>
    ensures { IfOk result (λ ty. option_map spelled ty ≡ table_of word.now) }
{
    if !is_table(word.as_str()) {
        return Ok(None);
    }
    let name = word.clone()?;
    Ok(Some(JTy::Table(name)))
}

/// The type of one word.
pub fn word_type(word: &Name) -> Result<Option<JTy>, AllocError>
    ensures { IfOk result (λ ty. option_map spelled ty ≡ type_of_word word.now) }
{
    match scalar_type(word.as_str()) {
        Some(ty) => Ok(Some(ty)),
        None => table_type(word),
    }
}

/// What a list or a set may be of.
pub fn element_type(word: &Name) -> Result<Option<JTy>, AllocError>
    ensures { IfOk result (λ ty. option_map spelled ty ≡ element_of word.now) }
{
    if word.as_str() == "Integer" {
        Ok(Some(JTy::BoxedInteger))
    } else if word.as_str() == "Long" {
        Ok(Some(JTy::BoxedLong))
    } else if word.as_str() == "Boolean" {
        Ok(Some(JTy::BoxedBoolean))
    } else if word.as_str() == "String" {
        Ok(Some(JTy::String))
    } else {
        table_type(word)
    }
}

/// True for List, false for Set.
pub fn collection(word: &str) -> Option<bool>
    ensures { result ≡ collection_of_word word.now }
{
    if word == "List" {
        Some(true)
    } else if word == "Set" {
        Some(false)
    } else {
        None
    }
}

/// A list or a set of this.
pub fn collected(alloc: Global, list: bool, element: JTy) -> Result<JTy, AllocError>
    ensures { IfOk result (λ ty. spelled ty ≡ collection_of list (spelled element)) }
{
    let element = Box::new(alloc, element)?;
    if list {
        Ok(JTy::List(element))
    } else {
        Ok(JTy::Set(element))
    }
}

/// The truth value of this word.
pub fn truth_of(word: &str) -> Option<Scalar>
    ensures { result ≡ truth_of_word word.now }
{
    if word == "true" {
        Some(Scalar::Bool(true))
    } else if word == "false" {
        Some(Scalar::Bool(false))
    } else {
        None
    }
}

/// The operator of this sign, and its rank.
pub fn operator_of(sign: &str) -> Option<(Op, u32)>
    ensures { result ≡ operator_of_sign sign.now }
{
    if sign == "*" {
        Some((Op::Mul, 0))
    } else if sign == "+" {
        Some((Op::Add, 1))
    } else if sign == "-" {
        Some((Op::Sub, 1))
    } else if sign == "<" {
        Some((Op::Lt, 2))
    } else if sign == "<=" {
        Some((Op::Le, 2))
    } else if sign == ">" {
        Some((Op::Gt, 2))
    } else if sign == ">=" {
        Some((Op::Ge, 2))
    } else if sign == "==" {
        Some((Op::Eq, 3))
    } else if sign == "!=" {
        Some((Op::Ne, 3))
    } else if sign == "&&" {
        Some((Op::And, 4))
    } else if sign == "||" {
        Some((Op::Or, 5))
    } else {
        None
    }
}
