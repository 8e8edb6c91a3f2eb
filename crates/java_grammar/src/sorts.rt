// The keys of sorts.
ghost use Rattle.std.specs.Prelude.{◌≡◌, ◌∷◌, Ok, IfOk, IfErr, Some};
ghost use Rattle.readers.specs.Reading.{Gives};
ghost use Rattle.readers.specs.declared.fault.ReadError.TheVariants.{Memory};
ghost use Rattle.java_grammar.specs.Marks.{all_strict};
ghost use Rattle.java_grammar.specs.Statements.{is_turned as turned_by, keys_in, downs_in};
ghost use Rattle.java_grammar.specs.ReadingStatements.{key_part_at, next_key_at, reversed_at, further_member_at, further_at, all_further_at, keys_at, keys_part_at};

use crate::tokens::{ends_before, is_next_word, opening, sign, word};
use crate::types::key;
use java_lex::Token;
use qbs_base::{Bools, Items, Name, Names};
use readers::ReadError;
use std::alloc::Global;

/// What stands behind the first key: another key, or none where all keys before it are turned round.
type Further = Vec<Option<Name>>;

/// `(`, a key and `)`.
#[tactic(auto, unfolding(crate::specs::ReadingStatements::key_part_at))]
fn key_part(room: u32, tokens: &[Token]) -> Result<(&Name, &[Token]), ReadError>
    ensures value { Gives (λ x. (x.0.now, all_strict x.1.now)) result (key_part_at room (all_strict tokens.now)) }
    ensures no_memory { IfErr result (λ e. e ≡ ReadError.Memory → ⊥) }
{
    let rest = opening(room, "(", tokens)?;
    let (column, rest) = key(room.saturating_sub(1), rest)?;
    let rest = sign(")", rest)?;
    Ok((column, rest))
}

#[tactic(auto, unfolding(crate::specs::ReadingStatements::next_key_at))]
fn next_key(room: u32, tokens: &[Token]) -> Result<(Option<Name>, &[Token]), ReadError>
    ensures { Gives (λ x. (x.0, all_strict x.1.now)) result (next_key_at room (all_strict tokens.now)) }
{
    let rest = word("thenComparing", tokens)?;
    let (column, rest) = key_part(room, rest)?;
    let column = column.clone()?;
    Ok((Some(column), rest))
}

#[tactic(auto, unfolding(crate::specs::ReadingStatements::reversed_at))]
fn reversed(room: u32, tokens: &[Token]) -> Result<(Option<Name>, &[Token]), ReadError>
    ensures value { Gives (λ x. (x.0, all_strict x.1.now)) result (reversed_at room (all_strict tokens.now)) }
    ensures no_memory { IfErr result (λ e. e ≡ ReadError.Memory → ⊥) }
{
    let rest = word("reversed", tokens)?;
    let rest = opening(room, "(", rest)?;
    let rest = sign(")", rest)?;
    Ok((None, rest))
}

#[tactic(auto, unfolding(crate::specs::ReadingStatements::further_member_at))]
fn further_member(room: u32, tokens: &[Token]) -> Result<(Option<Name>, &[Token]), ReadError>
    ensures { Gives (λ x. (x.0, all_strict x.1.now)) result (further_member_at room (all_strict tokens.now)) }
{
    if is_next_word("thenComparing", tokens) {
        return next_key(room, tokens);
    }
    reversed(room, tokens)
}

/// A dot, and another key or what turns the keys round.
#[tactic(auto, unfolding(crate::specs::ReadingStatements::further_at))]
fn further(room: u32, tokens: &[Token]) -> Result<(Option<Name>, &[Token]), ReadError>
    ensures { Gives (λ x. (x.0, all_strict x.1.now)) result (further_at room (all_strict tokens.now)) }
{
    let rest = sign(".", tokens)?;
    let (part, rest) = further_member(room, rest)?;
    Ok((part, rest))
}

fn all_further(alloc: Global, room: u32, tokens: &[Token]) -> Result<(Further, &[Token]), ReadError>
    ensures { Gives (λ x. (x.0.items, all_strict x.1.now)) result (all_further_at room (all_strict tokens.now)) }
{
    let mut parts = Vec::new(alloc);
    let mut rest = tokens;
    // Each has a token at least.
    for _ in 0..tokens.len() {
        if ends_before(".", rest) {
            break;
        }
        let (part, after) = further(room, rest)?;
        parts.push(part)?;
        rest = after;
    }
    Ok((parts, rest))
}

/// The first key and what stands behind it.
#[tactic(auto, unfolding(crate::specs::ReadingStatements::keys_at))]
fn keys(alloc: Global, room: u32, tokens: &[Token]) -> Result<(&Name, Further, &[Token]), ReadError>
    ensures { Gives (λ x. (Some x.0.now ∷ x.1.items, all_strict x.2.now)) result (keys_at room (all_strict tokens.now)) }
{
    let rest = word("Comparator", tokens)?;
    let rest = sign(".", rest)?;
    let rest = word("comparing", rest)?;
    let (first, rest) = key_part(room, rest)?;
    let (more, rest) = all_further(alloc, room, rest)?;
    Ok((first, more, rest))
}

/// The keys of a sort in their parentheses.
#[tactic(auto, unfolding(crate::specs::ReadingStatements::keys_part_at))]
pub fn keys_part(
    alloc: Global,
    room: u32,
    tokens: &[Token],
) -> Result<(&Name, Further, &[Token]), ReadError>
    ensures { Gives (λ x. (Some x.0.now ∷ x.1.items, all_strict x.2.now)) result (keys_part_at room (all_strict tokens.now)) }
{
    let rest = opening(room, "(", tokens)?;
    let (first, more, rest) = keys(alloc, room.saturating_sub(1), rest)?;
    let rest = sign(")", rest)?;
    Ok((first, more, rest))
}

/// Whether a key before these is down.
fn is_turned(parts: &[Option<Name>]) -> bool
    ensures { result ≡ turned_by parts.now }
{
    let mut turned = false;
    for part in parts.iter() {
        if part.is_none() {
            turned = !turned;
        }
    }
    turned
}

/// The keys, and for each whether it is down.
pub fn directed(
    alloc: Global,
    first: &Name,
    parts: &[Option<Name>],
) -> Result<(Names, Bools), ReadError>
    ensures ok { IfOk result (λ x. (x.0 ≡ keys_in (Some first.now ∷ parts.now)) × (x.1 ≡ downs_in (Some first.now ∷ parts.now))) }
    ensures err { IfErr result (λ e. e ≡ Memory) }
{
    let mut turned = is_turned(parts);
    let mut keys = Vec::new(alloc);
    let mut downs = Vec::new(alloc);
    keys.push(first.clone()?)?;
    downs.push(turned)?;
    for part in parts {
        match part {
            None => turned = !turned,
            Some(key) => {
                keys.push(key.clone()?)?;
                downs.push(turned)?;
            }
        }
    }
    Ok((Items::from_vec(keys), Items::from_vec(downs)))
}
