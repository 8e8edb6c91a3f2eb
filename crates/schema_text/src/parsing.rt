// Tokens to tables, from left to right.
ghost use Rattle.std.specs.Prelude.{◌≡◌, length, map, IfErr};
ghost use Rattle.readers.specs.Reading.{Gives, first_passes, is_over, token_at};
ghost use Rattle.schema.specs.Tokens.{kinds_of};
ghost use Rattle.schema.specs.Marks.{table_of};
ghost use Rattle.schema.specs.Reading.{is_word, is_no_mark, is_no_comma, type_in, primary_in, name_at, word_at, sign_at, digits_at, sized_at, type_at, mark_at, marks_at, rest_at, next_name_at, names_behind, names_at, key_clause, key_at, column_at, item_at, next_item_at, columns_behind, head_at, body_at, tail_at, draft_at, drafts_at, read_of};

use qbs_base::{Column, Columns, Name, Names, Table, Ty};
use readers::{Fault, ReadError};
use schema::draft::{Draft, Item, Mark, Marks, column_of};
use schema::keywords::spells;
use schema::token::{Sign, Token};
use std::alloc::Global;

/// Reading stops at the first of these tokens.
fn unexpected(tokens: &[Token]) -> ReadError
    ensures { result ≡ ReadError.Fault (Fault.Unexpected (length tokens.now)) }
{
    ReadError::Fault(Fault::Unexpected(tokens.len()))
}

// ---- single tokens

fn name(tokens: &[Token]) -> Result<(&Name, &[Token]), ReadError>
    ensures exact { Gives (λ x. (x.0.now, kinds_of x.1.now)) result (name_at (kinds_of tokens.now)) }
    ensures no_memory { IfErr result (λ e. e ≡ ReadError.Memory → ⊥) }
{
    match tokens {
        [] => Err(unexpected(tokens)),
        [first, rest @ ..] => match first.word() {
            Some(word) => Ok((word, rest)),
            None => Err(unexpected(tokens)),
        },
    }
}

/// A copy of a name.
fn copied_name(tokens: &[Token]) -> Result<(Name, &[Token]), ReadError>
    ensures { Gives (λ x. (x.0, kinds_of x.1.now)) result (name_at (kinds_of tokens.now)) }
{
    let (name, rest) = name(tokens)?;
    let name = name.clone()?;
    Ok((name, rest))
}

fn word<'a>(keyword: &str, tokens: &'a [Token]) -> Result<&'a [Token], ReadError>
    ensures exact { Gives (λ x. (tt, kinds_of x.now)) result (word_at keyword.now (kinds_of tokens.now)) }
    ensures no_memory { IfErr result (λ e. e ≡ ReadError.Memory → ⊥) }
{
    match tokens {
        [first, rest @ ..] if first.is_word(keyword) => Ok(rest),
        _ => Err(unexpected(tokens)),
    }
}

fn sign(sign: Sign, tokens: &[Token]) -> Result<&[Token], ReadError>
    ensures exact { Gives (λ x. (tt, kinds_of x.now)) result (sign_at sign (kinds_of tokens.now)) }
    ensures no_memory { IfErr result (λ e. e ≡ ReadError.Memory → ⊥) }
{
    match tokens {
        [first, rest @ ..] if first.is_sign(sign) => Ok(rest),
        _ => Err(unexpected(tokens)),
    }
}

fn digits(tokens: &[Token]) -> Result<&[Token], ReadError>
    ensures exact { Gives (λ x. (tt, kinds_of x.now)) result (digits_at (kinds_of tokens.now)) }
    ensures no_memory { IfErr result (λ e. e ≡ ReadError.Memory → ⊥) }
{
    match tokens {
        [first, rest @ ..] if first.is_digits() => Ok(rest),
        _ => Err(unexpected(tokens)),
    }
}

/// Whether the next token is this keyword.
fn is_next(keyword: &str, tokens: &[Token]) -> bool
    ensures { result ≡ first_passes (is_word keyword.now) (kinds_of tokens.now) }
{
    match tokens {
        [] => false,
        [first, ..] => first.is_word(keyword),
    }
}

// ---- types and what follows them

/// VARCHAR and a length.
#[tactic(auto, unfolding(schema::specs::Reading::sized_at))]
fn sized(tokens: &[Token]) -> Result<&[Token], ReadError>
    ensures exact { Gives (λ x. (Ty.Text, kinds_of x.now)) result (sized_at (kinds_of tokens.now)) }
    ensures no_memory { IfErr result (λ e. e ≡ ReadError.Memory → ⊥) }
{
    let rest = word("VARCHAR", tokens)?;
    let rest = sign(Sign::Open, rest)?;
    let rest = digits(rest)?;
    sign(Sign::Close, rest)
}

/// A type of one word.
fn plain(tokens: &[Token]) -> Result<(Ty, &[Token]), ReadError>
    ensures exact { Gives (λ x. (x.0, kinds_of x.1.now)) result (token_at type_in (kinds_of tokens.now)) }
    ensures no_memory { IfErr result (λ e. e ≡ ReadError.Memory → ⊥) }
{
    match tokens {
        [] => Err(unexpected(tokens)),
        [first, rest @ ..] => match first.ty() {
            Some(ty) => Ok((ty, rest)),
            None => Err(unexpected(tokens)),
        },
    }
}

#[tactic(auto, unfolding(schema::specs::Reading::type_at))]
fn ty(tokens: &[Token]) -> Result<(Ty, &[Token]), ReadError>
    ensures exact { Gives (λ x. (x.0, kinds_of x.1.now)) result (type_at (kinds_of tokens.now)) }
    ensures no_memory { IfErr result (λ e. e ≡ ReadError.Memory → ⊥) }
{
    if is_next("VARCHAR", tokens) {
        return Ok((Ty::Text, sized(tokens)?));
    }
    plain(tokens)
}

/// NOT NULL or PRIMARY KEY.
#[tactic(auto, unfolding(schema::specs::Reading::mark_at))]
fn mark(tokens: &[Token]) -> Result<(Mark, &[Token]), ReadError>
    ensures exact { Gives (λ x. (x.0, kinds_of x.1.now)) result (mark_at (kinds_of tokens.now)) }
    ensures no_memory { IfErr result (λ e. e ≡ ReadError.Memory → ⊥) }
{
    if is_next("NOT", tokens) {
        let rest = word("NULL", word("NOT", tokens)?)?;
        Ok((Mark::NotNull, rest))
    } else {
        let rest = word("KEY", word("PRIMARY", tokens)?)?;
        Ok((Mark::PrimaryKey, rest))
    }
}

/// Whether there is no next token, or it is no such word.
fn is_unmarked(tokens: &[Token]) -> bool
    ensures { result ≡ is_over is_no_mark (kinds_of tokens.now) }
{
    !is_next("NOT", tokens) && !is_next("PRIMARY", tokens)
}

/// NOT NULL and PRIMARY KEY, any number of them.
fn marks(tokens: &[Token]) -> Result<(Marks, &[Token]), ReadError>
    ensures exact { Gives (λ x. (x.0, kinds_of x.1.now)) result (marks_at (kinds_of tokens.now)) }
    ensures no_memory { IfErr result (λ e. e ≡ ReadError.Memory → ⊥) }
{
    let mut marks = Marks {
        not_null: false,
        primary: false,
    };
    let mut rest = tokens;
    // Each has a token at least.
    for _ in 0..tokens.len() {
        if is_unmarked(rest) {
            break;
        }
        let (mark, after) = mark(rest)?;
        marks = marks.with(mark);
        rest = after;
    }
    Ok((marks, rest))
}

/// What stands behind the name of a column.
#[tactic(auto, unfolding(schema::specs::Reading::rest_at))]
fn column_type(tokens: &[Token]) -> Result<(Ty, Marks, &[Token]), ReadError>
    ensures exact { Gives (λ x. ((x.0, x.1), kinds_of x.2.now)) result (rest_at (kinds_of tokens.now)) }
    ensures no_memory { IfErr result (λ e. e ≡ ReadError.Memory → ⊥) }
{
    let (ty, rest) = ty(tokens)?;
    let (marks, rest) = marks(rest)?;
    Ok((ty, marks, rest))
}

// ---- columns and the key clause

/// Whether there is no next token, or it is no comma.
fn is_last(tokens: &[Token]) -> bool
    ensures { result ≡ is_over is_no_comma (kinds_of tokens.now) }
{
    match tokens {
        [] => true,
        [first, ..] => !first.is_sign(Sign::Comma),
    }
}

/// A comma and a name.
#[tactic(auto, unfolding(schema::specs::Reading::next_name_at))]
fn next_name(tokens: &[Token]) -> Result<(Name, &[Token]), ReadError>
    ensures { Gives (λ x. (x.0, kinds_of x.1.now)) result (next_name_at (kinds_of tokens.now)) }
{
    let rest = sign(Sign::Comma, tokens)?;
    copied_name(rest)
}

/// The names that are read already and those that follow, with a comma before each.
fn next_names(mut names: Vec<Name>, tokens: &[Token]) -> Result<(Vec<Name>, &[Token]), ReadError>
    ensures { Gives (λ x. (x.0.items, kinds_of x.1.now)) result (names_behind names.items (kinds_of tokens.now)) }
{
    let mut rest = tokens;
    // Each has a token at least.
    for _ in 0..tokens.len() {
        if is_last(rest) {
            break;
        }
        let (name, after) = next_name(rest)?;
        names.push(name)?;
        rest = after;
    }
    Ok((names, rest))
}

/// Names with commas between them.
#[tactic(auto, unfolding(schema::specs::Reading::names_at, schema::specs::Reading::names_behind))]
fn names(alloc: Global, tokens: &[Token]) -> Result<(Vec<Name>, &[Token]), ReadError>
    ensures { Gives (λ x. (x.0.items, kinds_of x.1.now)) result (names_at (kinds_of tokens.now)) }
{
    let (first, rest) = copied_name(tokens)?;
    next_names(vec![in alloc; first]?, rest)
}

/// A key clause behind PRIMARY. Its names are not looked up here.
#[tactic(auto, unfolding(schema::specs::Reading::key_at))]
fn key(alloc: Global, tokens: &[Token]) -> Result<(Names, &[Token]), ReadError>
    ensures { Gives (λ x. (key_clause x.0, kinds_of x.1.now)) result (key_at (kinds_of tokens.now)) }
{
    let rest = word("KEY", tokens)?;
    let rest = sign(Sign::Open, rest)?;
    let (names, rest) = names(alloc, rest)?;
    let rest = sign(Sign::Close, rest)?;
    Ok((Names::from_vec(names), rest))
}

#[tactic(auto, unfolding(schema::specs::Reading::column_at))]
fn column(tokens: &[Token]) -> Result<(Column, &[Token]), ReadError>
    ensures { Gives (λ x. (x.0, kinds_of x.1.now)) result (column_at (kinds_of tokens.now)) }
{
    let (name, rest) = name(tokens)?;
    let (ty, marks, rest) = column_type(rest)?;
    let name = name.clone()?;
    Ok((column_of(name, ty, marks), rest))
}

/// The word PRIMARY, as the name that it may be.
fn primary(tokens: &[Token]) -> Result<(&Name, &[Token]), ReadError>
    ensures exact { Gives (λ x. (x.0.now, kinds_of x.1.now)) result (token_at primary_in (kinds_of tokens.now)) }
    ensures no_memory { IfErr result (λ e. e ≡ ReadError.Memory → ⊥) }
{
    match tokens {
        [] => Err(unexpected(tokens)),
        [first, rest @ ..] => match first.word() {
            Some(word) if spells("PRIMARY", word.as_slice()) => Ok((word, rest)),
            _ => Err(unexpected(tokens)),
        },
    }
}

/// What stands behind a comma: a key clause or a column. PRIMARY begins a key clause exactly where
/// KEY follows.
#[tactic(auto, unfolding(schema::specs::Reading::item_at, schema::specs::Reading::primary_at, schema::specs::Reading::typed_at))]
fn item(alloc: Global, tokens: &[Token]) -> Result<(Item, &[Token]), ReadError>
    ensures { Gives (λ x. (x.0, kinds_of x.1.now)) result (item_at (kinds_of tokens.now)) }
{
    if !is_next("PRIMARY", tokens) {
        let (column, rest) = column(tokens)?;
        return Ok((Item::Column(column), rest));
    }
    let (name, rest) = primary(tokens)?;
    if is_next("KEY", rest) {
        let (names, rest) = key(alloc, rest)?;
        return Ok((Item::Key(names), rest));
    }
    let (ty, marks, rest) = column_type(rest)?;
    let name = name.clone()?;
    Ok((Item::Column(column_of(name, ty, marks)), rest))
}

/// A comma and what stands behind it.
#[tactic(auto, unfolding(schema::specs::Reading::next_item_at))]
fn next_item(alloc: Global, tokens: &[Token]) -> Result<(Item, &[Token]), ReadError>
    ensures { Gives (λ x. (x.0, kinds_of x.1.now)) result (next_item_at (kinds_of tokens.now)) }
{
    let rest = sign(Sign::Comma, tokens)?;
    item(alloc, rest)
}

/// The columns that are read already and those that follow, and the names of the key clause, none
/// where there is no such clause.
fn further(
    alloc: Global,
    mut columns: Vec<Column>,
    tokens: &[Token],
) -> Result<(Vec<Column>, Names, &[Token]), ReadError>
    ensures { Gives (λ x. ((x.0.items, x.1), kinds_of x.2.now)) result (columns_behind columns.items (kinds_of tokens.now)) }
{
    let mut rest = tokens;
    // Each has a token at least.
    for _ in 0..tokens.len() {
        if is_last(rest) {
            break;
        }
        let (item, after) = next_item(alloc, rest)?;
        match item {
            Item::Column(column) => columns.push(column)?,
            Item::Key(names) => return Ok((columns, names, after)),
        }
        rest = after;
    }
    Ok((columns, Names::new(alloc), rest))
}

/// All columns of a table, and the names of its key clause.
#[tactic(auto, unfolding(schema::specs::Reading::body_at, schema::specs::Reading::columns_behind))]
fn body(alloc: Global, tokens: &[Token]) -> Result<(Vec<Column>, Names, &[Token]), ReadError>
    ensures { Gives (λ x. ((x.0.items, x.1), kinds_of x.2.now)) result (body_at (kinds_of tokens.now)) }
{
    let (first, rest) = column(tokens)?;
    further(alloc, vec![in alloc; first]?, rest)
}

// ---- tables

/// CREATE TABLE, the name of a table, and what opens its columns.
#[tactic(auto, unfolding(schema::specs::Reading::head_at))]
fn head(tokens: &[Token]) -> Result<(&Name, &[Token]), ReadError>
    ensures exact { Gives (λ x. (x.0.now, kinds_of x.1.now)) result (head_at (kinds_of tokens.now)) }
    ensures no_memory { IfErr result (λ e. e ≡ ReadError.Memory → ⊥) }
{
    let rest = word("CREATE", tokens)?;
    let rest = word("TABLE", rest)?;
    let (name, rest) = name(rest)?;
    let rest = sign(Sign::Open, rest)?;
    Ok((name, rest))
}

/// What closes the columns and ends a table.
#[tactic(auto, unfolding(schema::specs::Reading::tail_at))]
fn tail(tokens: &[Token]) -> Result<&[Token], ReadError>
    ensures exact { Gives (λ x. ((tt, tt), kinds_of x.now)) result (tail_at (kinds_of tokens.now)) }
    ensures no_memory { IfErr result (λ e. e ≡ ReadError.Memory → ⊥) }
{
    let rest = sign(Sign::Close, tokens)?;
    sign(Sign::Semicolon, rest)
}

/// A table as it is written.
#[tactic(auto, unfolding(schema::specs::Reading::draft_at))]
fn draft(alloc: Global, tokens: &[Token]) -> Result<(Draft, &[Token]), ReadError>
    ensures { Gives (λ x. (x.0, kinds_of x.1.now)) result (draft_at (kinds_of tokens.now)) }
{
    let (name, rest) = head(tokens)?;
    let (columns, key, rest) = body(alloc, rest)?;
    let rest = tail(rest)?;
    let name = name.clone()?;
    let columns = Columns::from_vec(columns);
    let table = Table { name, columns };
    Ok((Draft { table, key }, rest))
}

/// All tables of a text as they are written.
fn drafts(alloc: Global, tokens: &[Token]) -> Result<(Vec<Draft>, &[Token]), ReadError>
    ensures { Gives (λ x. (x.0.items, kinds_of x.1.now)) result (drafts_at (kinds_of tokens.now)) }
{
    let mut drafts = Vec::new(alloc);
    let mut rest = tokens;
    // Each has a token at least.
    for _ in 0..tokens.len() {
        if rest.is_empty() {
            break;
        }
        let (draft, after) = draft(alloc, rest)?;
        drafts.push(draft)?;
        rest = after;
    }
    Ok((drafts, rest))
}

/// The tables that all of the tokens are, as they are written, or where reading stops.
#[tactic(auto, unfolding(schema::specs::Reading::read_of, schema::specs::Reading::tables_at))]
pub fn read(alloc: Global, tokens: &[Token]) -> Result<Vec<Draft>, ReadError>
    ensures { Gives (λ v. map table_of v.items) result (read_of (kinds_of tokens.now)) }
{
    let (drafts, rest) = drafts(alloc, tokens)?;
    if !rest.is_empty() {
        return Err(unexpected(rest));
    }
    Ok(drafts)
}
