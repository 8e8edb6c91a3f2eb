// Where statements end, by the grammar of Java with all names left aside.
ghost use Rattle.std.specs.Prelude.{◌≡◌, ◌<◌, ◌≤◌, ◌+◌, ◌^◌, IfSome, length};
ghost use Rattle.view_shapes.specs.Statements as specs;

use crate::finding::{Sought, behind, found, is_name, is_one_of_words, is_over, is_sign, is_word};
use view_items::Item;

/// What a statement is by its first items.
#[derive(Clone, Copy)]
pub enum Form {
    /// `{`
    Braces,
    If,
    /// `for`, `while` or `synchronized`.
    Headed,
    Do,
    Switch,
    Try,
    Label,
    /// A local class, interface, enum or record, with modifiers and annotations before it.
    Local,
    /// Any other, up to its semicolon.
    Simple,
}

/// The number behind the parentheses that stand behind a word.
pub fn head(items: &[Item], closings: &[usize], number: usize) -> Option<usize>
    requires { number < 2 ^ 63 }
    ensures value { result ≡ specs.head items.now closings.now number }
    ensures within { IfSome result (λ m. (number < m) × (m ≤ length items.now)) }
{
    if is_sign("(", items, number + 1) {
        behind(items, closings, number + 1)
    } else {
        None
    }
}

/// The number behind a modifier or a part of an annotation.
fn modifier_end(items: &[Item], closings: &[usize], number: usize) -> Option<usize>
    requires { number + 2 < 2 ^ 64 }
    ensures value { result ≡ specs.modifier_end items.now closings.now number }
    ensures within { IfSome result (λ m. m ≤ length items.now + 1) }
{
    if is_sign("@", items, number) || is_sign(".", items, number) {
        Some(number + 2)
    } else if is_one_of_words(&["final", "abstract", "static", "strictfp"], items, number) {
        Some(number + 1)
    } else if is_sign("(", items, number) {
        behind(items, closings, number)
    } else {
        None
    }
}

/// The number behind all modifiers and annotations.
#[tactic(auto, using(crate::proofs::Behind::modifiers_over, crate::proofs::Behind::modifiers_next, crate::proofs::Behind::modifiers_last))]
pub fn modifiers_end(items: &[Item], closings: &[usize], first: usize) -> usize
    requires { first + 2 < 2 ^ 64 }
    ensures value { result ≡ specs.modifiers_end (length items.now) items.now closings.now first }
    ensures within { result + 2 < 2 ^ 64 }
{
    let mut number = first;
    for _ in 0..items.len() {
        match modifier_end(items, closings, number) {
            None => return number,
            Some(next) => number = next,
        }
    }
    number
}

fn begins_type(items: &[Item], number: usize) -> bool
    requires { number + 2 < 2 ^ 64 }
    ensures { result ≡ specs.begins_type items.now number }
{
    is_one_of_words(&["class", "interface", "enum"], items, number)
        || (is_word("record", items, number)
            && is_name(items, number + 1)
            && (is_sign("(", items, number + 2) || is_sign("<", items, number + 2)))
}

fn is_label(items: &[Item], number: usize) -> bool
    requires { number + 2 < 2 ^ 64 }
    ensures { result ≡ specs.is_label items.now number }
{
    is_name(items, number) && is_sign(":", items, number + 1)
}

/// What a statement is that no word of its own begins.
fn other_form(items: &[Item], closings: &[usize], number: usize) -> Form
    requires { number + 2 < 2 ^ 64 }
    ensures { result ≡ specs.other_form items.now closings.now number }
{
    if is_label(items, number) {
        Form::Label
    } else if begins_type(items, modifiers_end(items, closings, number)) {
        Form::Local
    } else {
        Form::Simple
    }
}

/// What the statement is that begins at a number.
#[tactic(auto, unfolding(crate::specs::Statements::form_of))]
pub fn form_of(items: &[Item], closings: &[usize], number: usize) -> Form
    requires { number + 2 < 2 ^ 64 }
    ensures { result ≡ specs.form_of items.now closings.now number }
{
    if is_sign("{", items, number) {
        Form::Braces
    } else if is_word("if", items, number) {
        Form::If
    } else if is_one_of_words(&["for", "while", "synchronized"], items, number) {
        Form::Headed
    } else if is_word("do", items, number) {
        Form::Do
    } else if is_word("switch", items, number) {
        Form::Switch
    } else if is_word("try", items, number) {
        Form::Try
    } else {
        other_form(items, closings, number)
    }
}

fn brace_from(items: &[Item], number: usize) -> Option<usize>
    ensures value { result ≡ specs.brace_from items.now number }
    ensures within { IfSome result (λ b. b < length items.now) }
{
    if is_sign("{", items, number) {
        Some(number)
    } else {
        None
    }
}

/// The number of the brace of `try`, `catch` or `finally`.
pub fn brace_of(items: &[Item], closings: &[usize], number: usize) -> Option<usize>
    requires { number < 2 ^ 63 }
    ensures value { result ≡ specs.brace_of items.now closings.now number }
    ensures within { IfSome result (λ b. b < length items.now) }
{
    if is_sign("(", items, number + 1) {
        let next = behind(items, closings, number + 1)?;
        brace_from(items, next)
    } else {
        brace_from(items, number + 1)
    }
}

pub fn is_clause(items: &[Item], number: usize) -> bool
    ensures { result ≡ specs.is_clause items.now number }
{
    is_one_of_words(&["catch", "finally"], items, number)
}

/// The number behind the block of a `try`, `catch` or `finally`.
fn clause_end(items: &[Item], closings: &[usize], number: usize) -> Option<usize>
    requires { number < 2 ^ 63 }
    ensures value { result ≡ specs.clause_end items.now closings.now number }
    ensures within { IfSome result (λ m. m ≤ length items.now) }
{
    let brace = brace_of(items, closings, number)?;
    behind(items, closings, brace)
}

/// The number behind a `try` and all its clauses.
#[tactic(auto, using(crate::proofs::Behind::try_stuck, crate::proofs::Behind::try_over, crate::proofs::Behind::try_next, crate::proofs::Behind::try_none))]
fn try_end(items: &[Item], closings: &[usize], first: usize) -> Option<usize>
    requires { first < 2 ^ 63 }
    ensures value { result ≡ specs.try_end (length items.now) items.now closings.now first }
    ensures within { IfSome result (λ m. m ≤ length items.now) }
{
    let mut number = first;
    for _ in 0..items.len() {
        number = clause_end(items, closings, number)?;
        if !is_clause(items, number) {
            return Some(number);
        }
    }
    None
}

fn semicolon_end(items: &[Item], number: usize) -> Option<usize>
    ensures value { result ≡ specs.semicolon_end items.now number }
    ensures within { IfSome result (λ m. m ≤ length items.now) }
{
    if is_sign(";", items, number) {
        Some(number + 1)
    } else {
        None
    }
}

/// The number behind the `while` of a `do`.
fn do_end(items: &[Item], closings: &[usize], number: usize) -> Option<usize>
    requires { number < 2 ^ 63 }
    ensures value { result ≡ specs.do_end items.now closings.now number }
    ensures within { IfSome result (λ m. m ≤ length items.now) }
{
    if is_word("while", items, number) {
        let next = head(items, closings, number)?;
        semicolon_end(items, next)
    } else {
        None
    }
}

fn simple_end(items: &[Item], closings: &[usize], number: usize) -> Option<usize>
    ensures value { result ≡ specs.simple_end items.now closings.now number }
    ensures within { IfSome result (λ m. m ≤ length items.now) }
{
    let semicolon = found(Sought::Semicolon, items, closings, number)?;
    Some(semicolon + 1)
}

fn type_end(items: &[Item], closings: &[usize], number: usize) -> Option<usize>
    ensures value { result ≡ specs.type_end items.now closings.now number }
    ensures within { IfSome result (λ m. m ≤ length items.now) }
{
    let brace = found(Sought::Brace, items, closings, number)?;
    behind(items, closings, brace)
}

/// The number behind the statement that begins there, if at most so many statements stand inside one another without brackets.
#[tactic(auto, unfolding(crate::specs::Statements::end_within))]
pub fn end_within(levels: usize, items: &[Item], closings: &[usize], number: usize) -> Option<usize>
    ensures value { result ≡ specs.end_within levels items.now closings.now number }
    ensures within { IfSome result (λ m. m ≤ length items.now) }
{
    if levels == 0 || is_over(items, number) {
        return None;
    }
    match form_of(items, closings, number) {
        Form::Braces => behind(items, closings, number),
        Form::If => {
            let body = head(items, closings, number)?;
            let next = end_within(levels - 1, items, closings, body)?;
            if is_word("else", items, next) {
                end_within(levels - 1, items, closings, next + 1)
            } else {
                Some(next)
            }
        }
        Form::Headed => {
            let body = head(items, closings, number)?;
            end_within(levels - 1, items, closings, body)
        }
        Form::Do => {
            let next = end_within(levels - 1, items, closings, number + 1)?;
            do_end(items, closings, next)
        }
        Form::Switch => {
            let brace = head(items, closings, number)?;
            behind(items, closings, brace)
        }
        Form::Try => try_end(items, closings, number),
        Form::Label => end_within(levels - 1, items, closings, number + 2),
        Form::Local => type_end(items, closings, number),
        Form::Simple => simple_end(items, closings, number),
    }
}

/// The number behind the last item of the statement that begins at a number, by the grammar of Java with all names left aside. None where
/// there is no statement, or where more than 64 others stand round one in it without brackets. Time goes with the number of its items.
pub fn end_of(items: &[Item], closings: &[usize], number: usize) -> Option<usize>
    ensures value { result ≡ specs.end_of items.now closings.now number }
    ensures within { IfSome result (λ m. m ≤ length items.now) }
{
    end_within(65, items, closings, number)
}
