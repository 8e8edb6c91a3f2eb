// Tokens with calls spelled out, and which tokens these stand in place of.
ghost use Rattle.std.specs.Prelude.{◌≡◌, ◌++◌, ◌∷◌, [], length, option_map, IfOk, OnOk};
ghost use Rattle.java_lex.specs.declared.token.TokenNode.TheVariants.{Word, Text, Sign};
ghost use Rattle.java_grammar.specs.Reading.{is_sign as is_this_sign};
ghost use Rattle.java_grammar.specs.Words.{is_variable as may_be_variable, variable_in as variable_of};
ghost use Rattle.call_reader.specs.Seen.{seen};
ghost use Rattle.call_reader.specs.SpelledOut.{begins_with as begins_with_sign, called as called_at, behind as behind_at, behind_other as behind_other_of, behind_part as behind_part_of, in_place as put_in_place, query_at, opened, ending, token_at, spelled_out as spelled_as, number_of as number_among};

use java_lex::{Token, TokenList, TokenNode};
use java_words::{is_among, is_reserved_word};
use qbs_base::{Name, NoMemory, Span, Text};
use std::alloc::Global;

/// The names of numbers, which are no variables in expressions.
const NUMBER_TYPES: [&str; 2] = ["Long", "Integer"];

/// What a token stands behind: `=`, the name of a call, a part of a call in whose parentheses so many more are open, or
/// the parenthesis that ends one.
#[derive(Clone, Copy)]
enum Spot<'a> {
    BehindEquals,
    BehindName(&'a Name),
    InCall(usize),
    BehindCall,
    Elsewhere,
}

// ---- tokens

fn is_variable(word: &str) -> bool
    ensures { result ≡ may_be_variable word.now }
{
    !is_reserved_word(word) && !is_among(word, &NUMBER_TYPES)
}

fn variable(node: &TokenNode) -> Option<&Name>
    ensures { option_map (λ name. name.now) result ≡ variable_of node.now }
{
    match node {
        TokenNode::Word(word) if is_variable(word.as_str()) => Some(word),
        _ => None,
    }
}

fn is_sign(text: &str, node: &TokenNode) -> bool
    ensures { result ≡ is_this_sign text.now node.now }
{
    match node {
        TokenNode::Sign(sign) => sign.as_str() == text,
        _ => false,
    }
}

fn begins_with(text: &str, tokens: &[Token]) -> bool
    ensures { result ≡ begins_with_sign text.now tokens.now }
{
    match tokens {
        [] => false,
        [first, ..] => is_sign(text, &first.node),
    }
}

/// The name of the call that begins with this token, which stands there.
fn called<'a>(spot: Spot<'_>, node: &'a TokenNode, rest: &[Token]) -> Option<&'a Name>
    ensures { option_map (λ name. name.now) result ≡ called_at (seen spot.entry) node.now rest.now }
{
    match spot {
        Spot::BehindEquals if begins_with("(", rest) => variable(node),
        _ => None,
    }
}

// ---- where the next token stands

fn behind_other<'a>(node: &TokenNode) -> Spot<'a>
    ensures { seen result ≡ behind_other_of node.now }
{
    if is_sign("=", node) {
        Spot::BehindEquals
    } else {
        Spot::Elsewhere
    }
}

/// Behind this token of a call, in whose parentheses so many more are open.
fn behind_part<'a>(more: usize, node: &TokenNode) -> Result<Spot<'a>, NoMemory>
    ensures { IfOk result (λ spot. seen spot ≡ behind_part_of more node.now) }
{
    if is_sign("(", node) {
        return match more.checked_add(1) {
            Some(deeper) => Ok(Spot::InCall(deeper)),
            None => Err(NoMemory),
        };
    }
    if is_sign(")", node) {
        return Ok(match more {
            0 => Spot::BehindCall,
            _ => Spot::InCall(more - 1),
        });
    }
    Ok(Spot::InCall(more))
}

/// Behind this token, which stands there.
fn behind<'a>(spot: Spot<'_>, node: &'a TokenNode, rest: &[Token]) -> Result<Spot<'a>, NoMemory>
    ensures { IfOk result (λ next. seen next ≡ behind_at (seen spot.entry) node.now rest.now) }
{
    match spot {
        Spot::BehindName(_) => Ok(Spot::InCall(0)),
        Spot::InCall(more) => behind_part(more, node),
        _ => match called(spot, node, rest) {
            Some(name) => Ok(Spot::BehindName(name)),
            None => Ok(behind_other(node)),
        },
    }
}

// ---- what stands in its place

fn push_node(out: &mut TokenList, at: Span, node: TokenNode) -> Result<(), NoMemory>
    ensures { OnOk result (out.new ≡ out.old ++ token_at at node ∷ []) }
{
    out.push(Token { span: at, node })
}

fn push_word(alloc: Global, out: &mut TokenList, at: Span, text: &str) -> Result<(), NoMemory>
    ensures { OnOk result (out.new ≡ out.old ++ token_at at (Word text.now) ∷ []) }
{
    let word = Text::from_str(alloc, text)?;
    push_node(out, at, TokenNode::Word(word))
}

fn push_sign(alloc: Global, out: &mut TokenList, at: Span, text: &str) -> Result<(), NoMemory>
    ensures { OnOk result (out.new ≡ out.old ++ token_at at (Sign text.now) ∷ []) }
{
    let sign = Text::from_str(alloc, text)?;
    push_node(out, at, TokenNode::Sign(sign))
}

fn push_same(out: &mut TokenList, token: &Token) -> Result<(), NoMemory>
    ensures { OnOk result (out.new ≡ out.old ++ token.now ∷ []) }
{
    let node = token.node.clone()?;
    push_node(out, token.span, node)
}

/// In place of the name of a call.
fn push_query(alloc: Global, out: &mut TokenList, at: Span) -> Result<(), NoMemory>
    ensures { OnOk result (out.new ≡ out.old ++ query_at at) }
{
    push_word(alloc, out, at, "db")?;
    push_sign(alloc, out, at, ".")?;
    push_word(alloc, out, at, "queryLong")?;
    Ok(())
}

/// In place of the parenthesis that opens a call of this name.
fn push_opened(
    alloc: Global,
    out: &mut TokenList,
    name: &Name,
    token: &Token,
    rest: &[Token],
) -> Result<(), NoMemory>
    ensures { OnOk result (out.new ≡ out.old ++ opened name.now token.now rest.now) }
{
    push_same(out, token)?;
    let text = name.clone()?;
    push_node(out, token.span, TokenNode::Text(text))?;
    if begins_with(")", rest) {
        return Ok(());
    }
    push_sign(alloc, out, token.span, ",")
}

/// In place of what follows a call.
fn push_ending(alloc: Global, out: &mut TokenList, token: &Token) -> Result<(), NoMemory>
    ensures { OnOk result (out.new ≡ out.old ++ ending token.now) }
{
    if is_sign(";", &token.node) {
        return push_same(out, token);
    }
    push_sign(alloc, out, token.span, "{")
}

/// In place of this token, which stands there.
fn push_in_place(
    alloc: Global,
    out: &mut TokenList,
    spot: Spot<'_>,
    token: &Token,
    rest: &[Token],
) -> Result<(), NoMemory>
    ensures { OnOk result (out.new ≡ out.old ++ put_in_place (seen spot.entry) token.now rest.now) }
{
    match spot {
        Spot::BehindName(name) => push_opened(alloc, out, name, token, rest),
        Spot::InCall(_) => push_same(out, token),
        Spot::BehindCall => push_ending(alloc, out, token),
        _ => match called(spot, &token.node, rest) {
            Some(_) => push_query(alloc, out, token.span),
            None => push_same(out, token),
        },
    }
}

/// These tokens, with calls spelled out.
pub fn spelled_out(alloc: Global, tokens: &[Token]) -> Result<TokenList, NoMemory>
    ensures { IfOk result (λ ts. ts ≡ spelled_as tokens.now) }
{
    let mut out = TokenList::new(alloc);
    let mut spot = Spot::Elsewhere;
    let mut rest = tokens;
    while let [token, after @ ..] = rest {
        push_in_place(alloc, &mut out, spot, token, after)?;
        spot = behind(spot, &token.node, after)?;
        rest = after;
    }
    Ok(out)
}

// ---- numbers of tokens

/// How many tokens stand in place of this one, which stands there.
fn count_in_place(spot: Spot<'_>, token: &Token, rest: &[Token]) -> u64
    ensures { result ≡ length (put_in_place (seen spot.entry) token.now rest.now) }
{
    match spot {
        Spot::BehindName(_) if begins_with(")", rest) => 2,
        Spot::BehindName(_) => 3,
        Spot::InCall(_) | Spot::BehindCall => 1,
        _ => match called(spot, &token.node, rest) {
            Some(_) => 3,
            None => 1,
        },
    }
}

/// The number of the token in whose place the one with this number stands among those that are spelled out.
pub fn number_of(tokens: &[Token], spelled: u64) -> Result<u64, NoMemory>
    ensures { IfOk result (λ n. n ≡ number_among tokens.now spelled) }
{
    let mut number = 0u64;
    let mut left = spelled;
    let mut spot = Spot::Elsewhere;
    let mut rest = tokens;
    while let [token, after @ ..] = rest {
        let count = count_in_place(spot, token, after);
        if left < count {
            break;
        }
        left -= count;
        spot = behind(spot, &token.node, after)?;
        rest = after;
        number = number.saturating_add(1);
    }
    Ok(number)
}
