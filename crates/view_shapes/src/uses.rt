// Where a name stands so that it can't be declared there.
ghost use Rattle.std.specs.Prelude.{◌≡◌, ◌<◌, ◌≤◌, ◌^◌, length, map, slice_get, IsTrue};
ghost use Rattle.std.specs.List.{list_any};
ghost use Rattle.std.specs.Str.{bytes_eq};
ghost use Rattle.view_shapes.specs.Uses as specs;

use crate::finding::{
    closing_at, has_kind, has_name, is_name, is_one_of_signs, is_one_of_words, is_sign, is_word,
};
use view_items::{Item, ItemKind};

const KEYWORDS: [&str; 54] = [
    "abstract",
    "assert",
    "boolean",
    "break",
    "byte",
    "case",
    "catch",
    "char",
    "class",
    "const",
    "continue",
    "default",
    "do",
    "double",
    "else",
    "enum",
    "extends",
    "false",
    "final",
    "finally",
    "float",
    "for",
    "goto",
    "if",
    "implements",
    "import",
    "instanceof",
    "int",
    "interface",
    "long",
    "native",
    "new",
    "null",
    "package",
    "private",
    "protected",
    "public",
    "return",
    "short",
    "static",
    "strictfp",
    "super",
    "switch",
    "synchronized",
    "this",
    "throw",
    "throws",
    "transient",
    "true",
    "try",
    "void",
    "volatile",
    "while",
    "_",
];

const SIGNS_BEFORE_USES: [&str; 20] = [
    "=", "==", "!=", "<", "<=", ">=", "&&", "||", "!", "+", "-", "*", "/", "%", "?", ":", "->",
    "+=", "-=", ")",
];

/// Whether the item with this number is a word of Java that is no name.
pub fn is_keyword(items: &[Item], number: usize) -> bool
    ensures { result ≡ specs.is_keyword items.now number }
{
    is_one_of_words(&KEYWORDS, items, number)
}

fn is_among(words: &[&str], bytes: &[u8]) -> bool
    ensures { result ≡ list_any (λ w. bytes_eq w bytes.now) (map (λ w. w.now) words.now) }
{
    match words {
        [] => false,
        [word, words @ ..] => word.as_bytes() == bytes || is_among(words, bytes),
    }
}

/// Whether the bytes are a word of Java that is no name.
#[tactic(auto, unfolding(crate::specs::Uses::is_keyword_name))]
pub fn is_keyword_name(bytes: &[u8]) -> bool
    ensures { result ≡ specs.is_keyword_name bytes.now }
{
    is_among(&KEYWORDS, bytes)
}

/// Whether the item may stand before names with dots that something is compared with.
fn begins_comparison(items: &[Item], number: usize) -> bool
    ensures { result ≡ specs.begins_comparison items.now number }
{
    is_one_of_signs(&["(", "&&", "||", "!", "=", "+", "-", "*"], items, number)
        || is_word("return", items, number)
}

/// Whether a dot and a name stand before.
fn is_dotted(items: &[Item], number: usize) -> bool
    ensures value { result ≡ specs.is_dotted items.now number }
    ensures within { IsTrue result → 2 ≤ number }
{
    number >= 2 && is_sign(".", items, number - 1) && is_name(items, number - 2)
}

/// The number of the first of names with dots between them, of which the last one has this number.
#[tactic(auto, using(crate::proofs::Round::names_over, crate::proofs::Round::names_next, crate::proofs::Round::names_end))]
fn first_of_names(items: &[Item], last: usize) -> usize
    ensures { result ≡ specs.first_of_names (length items.now) items.now last }
{
    let mut number = last;
    for _ in 0..items.len() {
        if !is_dotted(items, number) {
            return number;
        }
        number -= 2;
    }
    number
}

/// Whether the item with this number ends what is compared.
fn ends_compared(items: &[Item], number: usize) -> bool
    ensures { result ≡ specs.ends_compared items.now number }
{
    if is_sign(")", items, number)
        || has_kind(ItemKind::Number, items, number)
        || has_kind(ItemKind::Text, items, number)
    {
        return true;
    }
    if !is_name(items, number) {
        return false;
    }
    let first = first_of_names(items, number);
    first > 0 && begins_comparison(items, first - 1)
}

/// Whether the `>` with this number compares.
fn is_comparison(items: &[Item], number: usize) -> bool
    ensures { result ≡ specs.is_comparison items.now number }
{
    is_sign(">", items, number) && number > 0 && ends_compared(items, number - 1)
}

/// Whether the item is a parenthesis that has a closing one, and no arrow stands behind that.
fn is_no_lambda(items: &[Item], closings: &[usize], number: usize) -> bool
    ensures { result ≡ specs.is_no_lambda items.now closings.now number }
{
    if !is_sign("(", items, number) {
        return false;
    }
    match closing_at(items, closings, number) {
        None => false,
        Some(closing) => !is_sign("->", items, closing + 1),
    }
}

/// Whether the item may be the name of what is called: it is no keyword.
pub fn is_called(items: &[Item], number: usize) -> bool
    ensures { result ≡ specs.is_called items.now number }
{
    is_name(items, number) && !is_keyword(items, number)
}

fn is_call(items: &[Item], closings: &[usize], number: usize) -> bool
    ensures { result ≡ specs.is_call items.now closings.now number }
{
    is_no_lambda(items, closings, number) && number > 0 && is_called(items, number - 1)
}

/// Whether the innermost bracket that is open at an item is the parenthesis of a call.
fn is_call_around(items: &[Item], closings: &[usize], rounds: &[usize], number: usize) -> bool
    ensures { result ≡ specs.is_call_around items.now closings.now (slice_get rounds.now number) }
{
    match rounds.get(number) {
        None => false,
        Some(round) => is_call(items, closings, *round),
    }
}

/// Whether a name that no other name stands behind is an argument of a call, or stands alone in parentheses or first in them.
fn is_argument(items: &[Item], closings: &[usize], rounds: &[usize], number: usize) -> bool
    requires { 0 < number }
    ensures { result ≡ specs.is_argument items.now closings.now rounds.now number }
{
    is_no_lambda(items, closings, number - 1)
        || (is_sign(",", items, number - 1) && is_call_around(items, closings, rounds, number))
}

/// Whether what stands before a name stands before uses only.
fn is_behind_use_sign(items: &[Item], closings: &[usize], rounds: &[usize], number: usize) -> bool
    requires { number < 2 ^ 63 }
    ensures { result ≡ specs.is_behind_use_sign items.now closings.now rounds.now number }
{
    if number == 0 {
        return false;
    }
    is_one_of_signs(&SIGNS_BEFORE_USES, items, number - 1)
        || is_one_of_words(
            &["return", "case", "throw", "else", "new"],
            items,
            number - 1,
        )
        || is_comparison(items, number - 1)
        || (is_one_of_signs(&["{", "}", ";"], items, number - 1) && is_sign(".", items, number + 1))
        || (!is_name(items, number + 1) && is_argument(items, closings, rounds, number))
}

/// Whether what stands behind a name may stand behind one that is declared.
fn may_be_declared(items: &[Item], number: usize) -> bool
    requires { number < 2 ^ 63 }
    ensures { result ≡ specs.may_be_declared items.now number }
{
    is_sign("->", items, number + 1)
        || is_sign("=", items, number + 1)
        || (is_sign(":", items, number + 1)
            && !(number > 0
                && (is_word("case", items, number - 1) || is_sign("?", items, number - 1))))
}

/// Whether the item with this number stands where it can't declare the name that it is. What is allowed is a list, so that any other place
/// isn't. `rounds` are those of all items, as `closings`.
#[tactic(auto, unfolding(crate::specs::Uses::is_use))]
pub fn is_use(items: &[Item], closings: &[usize], rounds: &[usize], number: usize) -> bool
    requires { number < 2 ^ 63 }
    ensures { result ≡ specs.is_use items.now closings.now rounds.now number }
{
    !may_be_declared(items, number) && is_behind_use_sign(items, closings, rounds, number)
}

/// Whether the item is the name, and neither behind a dot nor `::` nor `@`.
fn stands_alone(items: &[Item], name: &[u8], number: usize) -> bool
    ensures value { result ≡ specs.stands_alone items.now name.now number }
    ensures within { IsTrue result → number < length items.now }
{
    has_name(items, name, number)
        && !(number > 0 && is_one_of_signs(&[".", "::", "@"], items, number - 1))
}

/// Whether a name stands, from a number up to another, nowhere but where it can't be declared. Parameters aren't looked at.
#[tactic(auto, using(crate::proofs::Numbers::all_but, crate::proofs::Numbers::all_next, crate::proofs::Numbers::all_end))]
pub fn is_free(
    items: &[Item],
    closings: &[usize],
    rounds: &[usize],
    name: &[u8],
    from: usize,
    to: usize,
) -> bool
    ensures { result ≡ specs.is_free items.now closings.now rounds.now name.now from to }
{
    for number in from..to {
        if stands_alone(items, name, number) && !is_use(items, closings, rounds, number) {
            return false;
        }
    }
    true
}
