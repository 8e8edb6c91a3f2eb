// Reading the words of a command line.
ghost use Rattle.std.specs.Prelude.{◌≡◌, IfOk, MatchOption, Some, None, true};
ghost use Rattle.words.specs.Options.{takes, unset};
ghost use Rattle.words.specs.Plain.{all_bare, begins_with_dash};
ghost use Rattle.words.specs.Reading.{plain, schema_in, spelled, spelled_within, spelling, verb_of, set, set_for, seen, with, value_then, options_of, others_of, command_of, command_with, entity_names, schema_entity_names, checked_names, ReadsPlainWords};

use crate::{Command, Key, Options, Verb};
use qbs_base::{Text, Words};
use std::alloc::{AllocError, Global};
use word_values::{first_of, number_within, size_value, size_within, value_behind};

/// How a word spells an option: as a flag, with its value in the next word, with its value behind
/// `=`, or not at all.
#[derive(Clone, Copy)]
pub enum Spelling<'a> {
    Flag(Key),
    Next(Key),
    Same(Key, &'a str),
    Other,
}

pub fn verb_of(word: &str) -> Option<Verb>
    ensures { result ≡ verb_of word.now }
{
    match word {
        "rewrite" => Some(Verb::Rewrite),
        "prove" => Some(Verb::Prove),
        "check" => Some(Verb::Check),
        "run" => Some(Verb::Run),
        "sql" => Some(Verb::Sql),
        "make" => Some(Verb::Make),
        "unnest" => Some(Verb::Unnest),
        "narrow" => Some(Verb::Narrow),
        "inline" => Some(Verb::Inline),
        "gather" => Some(Verb::Gather),
        "schema" => Some(Verb::Schema),
        "view" => Some(Verb::View),
        "map" => Some(Verb::Map),
        _ => None,
    }
}

pub fn spelling_of(word: &str) -> Spelling<'_>
    ensures { spelling result ≡ spelled word.now }
{
    if word == "--rewritten" {
        return Spelling::Flag(Key::Rewritten);
    }
    if word == "--check" {
        return Spelling::Flag(Key::Check);
    }
    if word == "--schema" {
        return Spelling::Flag(Key::Schema);
    }
    if word == "--size" {
        return Spelling::Next(Key::Size);
    }
    if word == "--candidates" {
        return Spelling::Next(Key::Candidates);
    }
    if word == "--turns" {
        return Spelling::Next(Key::Turns);
    }
    if word == "--store" {
        return Spelling::Next(Key::Store);
    }
    if word == "--view" {
        return Spelling::Next(Key::View);
    }
    if word == "--tables" {
        return Spelling::Next(Key::Tables);
    }
    if word == "--columns" {
        return Spelling::Next(Key::Columns);
    }
    value_of(word)
}

// The option whose value stands behind `=`.
fn value_of(word: &str) -> Spelling<'_>
    ensures { spelling result ≡ spelled_within word.now }
{
    if let Some(value) = size_value(word) {
        return Spelling::Same(Key::Size, value);
    }
    if let Some(value) = value_behind("--candidates=", word) {
        return Spelling::Same(Key::Candidates, value);
    }
    if let Some(value) = value_behind("--turns=", word) {
        return Spelling::Same(Key::Turns, value);
    }
    if let Some(value) = value_behind("--store=", word) {
        return Spelling::Same(Key::Store, value);
    }
    if let Some(value) = value_behind("--view=", word) {
        return Spelling::Same(Key::View, value);
    }
    if let Some(value) = value_behind("--tables=", word) {
        return Spelling::Same(Key::Tables, value);
    }
    if let Some(value) = value_behind("--columns=", word) {
        return Spelling::Same(Key::Columns, value);
    }
    Spelling::Other
}

pub fn takes(verb: Verb, key: Key) -> bool
    ensures { result ≡ takes verb key }
{
    match verb {
        Verb::Rewrite | Verb::Prove => {
            matches!(key, Key::Size | Key::Candidates | Key::Store | Key::View)
        }
        Verb::Check | Verb::Narrow => matches!(key, Key::View),
        Verb::Run => matches!(
            key,
            Key::Size | Key::Candidates | Key::Turns | Key::Rewritten
        ),
        Verb::Unnest => matches!(key, Key::Size | Key::Candidates | Key::View),
        Verb::Gather => matches!(key, Key::Size | Key::Candidates),
        Verb::Schema => matches!(key, Key::Tables | Key::Columns),
        Verb::Map => matches!(key, Key::Check | Key::Schema),
        Verb::Sql | Verb::Make | Verb::Inline | Verb::View => false,
    }
}

// The options with one more; None where it is set already or its value isn't one.
fn set(
    alloc: Global,
    key: Key,
    value: &str,
    options: Options,
) -> Result<Option<Options>, AllocError>
    ensures { IfOk result (λ o. o ≡ set key value.now options) }
{
    match key {
        Key::Size => set_size(alloc, value, options),
        Key::Candidates => set_candidates(alloc, value, options),
        Key::Turns => set_turns(alloc, value, options),
        Key::Rewritten => Ok(set_rewritten(value, options)),
        Key::Store => set_store(alloc, value, options),
        Key::View => set_view(alloc, value, options),
        Key::Tables => set_tables(alloc, value, options),
        Key::Columns => set_columns(alloc, value, options),
        Key::Check => Ok(set_check(value, options)),
        Key::Schema => Ok(set_schema(value, options)),
    }
}

fn set_size(alloc: Global, value: &str, mut options: Options) -> Result<Option<Options>, AllocError>
    ensures { IfOk result (λ o. o ≡ set Key.Size value.now options) }
{
    if options.size.is_some() {
        return Ok(None);
    }
    match size_within(alloc, value)? {
        Some(size) => {
            options.size = Some(size);
            Ok(Some(options))
        }
        None => Ok(None),
    }
}

fn set_candidates(
    alloc: Global,
    value: &str,
    mut options: Options,
) -> Result<Option<Options>, AllocError>
    ensures { IfOk result (λ o. o ≡ set Key.Candidates value.now options) }
{
    if options.candidates.is_some() {
        return Ok(None);
    }
    match number_within(alloc, value, 1, 1000000)? {
        Some(candidates) => {
            options.candidates = Some(candidates);
            Ok(Some(options))
        }
        None => Ok(None),
    }
}

fn set_turns(
    alloc: Global,
    value: &str,
    mut options: Options,
) -> Result<Option<Options>, AllocError>
    ensures { IfOk result (λ o. o ≡ set Key.Turns value.now options) }
{
    if options.turns.is_some() {
        return Ok(None);
    }
    match number_within(alloc, value, 1, 100000000)? {
        Some(turns) => {
            options.turns = Some(turns);
            Ok(Some(options))
        }
        None => Ok(None),
    }
}

fn set_rewritten(value: &str, mut options: Options) -> Option<Options>
    ensures { result ≡ set Key.Rewritten value.now options }
{
    if !value.is_empty() {
        return None;
    }
    if options.rewritten {
        return None;
    }
    options.rewritten = true;
    Some(options)
}

fn set_store(
    alloc: Global,
    value: &str,
    mut options: Options,
) -> Result<Option<Options>, AllocError>
    ensures { IfOk result (λ o. o ≡ set Key.Store value.now options) }
{
    if options.store.is_some() {
        return Ok(None);
    }
    options.store = Some(Text::from_str(alloc, value)?);
    Ok(Some(options))
}

fn set_view(alloc: Global, value: &str, mut options: Options) -> Result<Option<Options>, AllocError>
    ensures { IfOk result (λ o. o ≡ set Key.View value.now options) }
{
    if options.view.is_some() {
        return Ok(None);
    }
    options.view = Some(Text::from_str(alloc, value)?);
    Ok(Some(options))
}

fn set_tables(
    alloc: Global,
    value: &str,
    mut options: Options,
) -> Result<Option<Options>, AllocError>
    ensures { IfOk result (λ o. o ≡ set Key.Tables value.now options) }
{
    if options.tables.is_some() {
        return Ok(None);
    }
    options.tables = Some(Text::from_str(alloc, value)?);
    Ok(Some(options))
}

fn set_columns(
    alloc: Global,
    value: &str,
    mut options: Options,
) -> Result<Option<Options>, AllocError>
    ensures { IfOk result (λ o. o ≡ set Key.Columns value.now options) }
{
    if options.columns.is_some() {
        return Ok(None);
    }
    options.columns = Some(Text::from_str(alloc, value)?);
    Ok(Some(options))
}

fn set_check(value: &str, mut options: Options) -> Option<Options>
    ensures { result ≡ set Key.Check value.now options }
{
    if !value.is_empty() {
        return None;
    }
    if options.check {
        return None;
    }
    options.check = true;
    Some(options)
}

fn set_schema(value: &str, mut options: Options) -> Option<Options>
    ensures { result ≡ set Key.Schema value.now options }
{
    if !value.is_empty() {
        return None;
    }
    if options.schema {
        return None;
    }
    options.schema = true;
    Some(options)
}

fn set_for(
    alloc: Global,
    verb: Verb,
    key: Key,
    value: &str,
    options: Options,
) -> Result<Option<Options>, AllocError>
    ensures { IfOk result (λ o. o ≡ set_for verb key value.now options) }
{
    if takes(verb, key) {
        set(alloc, key, value, options)
    } else {
        Ok(None)
    }
}

// The options at the front of the words, and the words after them. It goes no deeper than there
// are options, since each is set once.
#[cycle(options)]
#[tactic(auto, using(crate::proofs::Exact::at_same), unfolding(crate::specs::Reading::options_of))]
fn options_of(
    alloc: Global,
    verb: Verb,
    words: &[Text],
    options: Options,
) -> Result<Option<(Options, &[Text])>, AllocError>
    ensures { IfOk result (λ r. seen r ≡ options_of verb words.now options) }
{
    let [first, rest @ ..] = words else {
        return Ok(Some((options, words)));
    };
    match spelling_of(first.as_str()) {
        Spelling::Flag(key) => option_then(alloc, verb, key, "", rest, options),
        Spelling::Next(key) => value_then(alloc, verb, key, rest, options),
        Spelling::Same(key, value) => option_then(alloc, verb, key, value, rest, options),
        Spelling::Other => Ok(Some((options, words))),
    }
}

// An option whose value is the next word, and the options after it.
#[cycle(options)]
#[tactic(auto, unfolding(crate::specs::Reading::value_then))]
fn value_then(
    alloc: Global,
    verb: Verb,
    key: Key,
    words: &[Text],
    options: Options,
) -> Result<Option<(Options, &[Text])>, AllocError>
    ensures { IfOk result (λ r. seen r ≡ value_then verb key words.now options) }
{
    let [value, rest @ ..] = words else {
        return Ok(None);
    };
    option_then(alloc, verb, key, value.as_str(), rest, options)
}

// An option with its value, and the options after it.
#[cycle(options)]
fn option_then<'a>(
    alloc: Global,
    verb: Verb,
    key: Key,
    value: &str,
    words: &'a [Text],
    options: Options,
) -> Result<Option<(Options, &'a [Text])>, AllocError>
    ensures { IfOk result (λ r. seen r ≡ with (set_for verb key value.now options) (λ p. options_of verb words.now p)) }
{
    match set_for(alloc, verb, key, value, options)? {
        Some(options) => options_of(alloc, verb, words, options),
        None => Ok(None),
    }
}

// Whether no word begins with `-`.
fn all_bare(words: &[Text]) -> bool
    ensures { result ≡ all_bare words.now }
{
    for word in words {
        if begins_with_dash(word.as_slice()) {
            return false;
        }
    }
    true
}

fn begins_with_dash(word: &[u8]) -> bool
    ensures { result ≡ begins_with_dash word.now }
{
    match word {
        [] => false,
        [first, ..] => *first == b'-',
    }
}

// The other words; None where one begins with `-` and no `--` stands before them.
pub fn others_of(words: &[Text]) -> Option<&[Text]>
    ensures { MatchOption result (others_of words.now ≡ None) (λ names. others_of words.now ≡ Some names.now) }
{
    let [first, rest @ ..] = words else {
        return Some(words);
    };
    if first.as_str() == "--" {
        return Some(rest);
    }
    if all_bare(words) { Some(words) } else { None }
}

fn copies(alloc: Global, words: &[Text]) -> Result<Words, AllocError>
    ensures { IfOk result (λ copies. copies ≡ words.now) }
{
    let mut copies = Vec::new(alloc);
    for word in words {
        copies.push(word.clone()?)?;
    }
    Ok(Words::from_vec(copies))
}

fn rewrite_of(options: Options, names: &[Text]) -> Result<Option<Command>, AllocError>
    ensures { IfOk result (λ c. c ≡ command_of Verb.Rewrite options names.now) }
{
    let [schema, source] = names else {
        return Ok(None);
    };
    Ok(Some(Command::Rewrite {
        options,
        schema: schema.clone()?,
        source: source.clone()?,
    }))
}

fn prove_of(options: Options, names: &[Text]) -> Result<Option<Command>, AllocError>
    ensures { IfOk result (λ c. c ≡ command_of Verb.Prove options names.now) }
{
    let [schema, source] = names else {
        return Ok(None);
    };
    Ok(Some(Command::Prove {
        options,
        schema: schema.clone()?,
        source: source.clone()?,
    }))
}

fn check_of(options: Options, names: &[Text]) -> Result<Option<Command>, AllocError>
    ensures { IfOk result (λ c. c ≡ command_of Verb.Check options names.now) }
{
    let [schema, source, bundle] = names else {
        return Ok(None);
    };
    Ok(Some(Command::Check {
        options,
        schema: schema.clone()?,
        source: source.clone()?,
        bundle: bundle.clone()?,
    }))
}

fn run_of(alloc: Global, options: Options, names: &[Text]) -> Result<Option<Command>, AllocError>
    ensures { IfOk result (λ c. c ≡ command_of Verb.Run options names.now) }
{
    let [schema, source, folder, method, arguments @ ..] = names else {
        return Ok(None);
    };
    Ok(Some(Command::Run {
        options,
        schema: schema.clone()?,
        source: source.clone()?,
        folder: folder.clone()?,
        method: method.clone()?,
        arguments: copies(alloc, arguments)?,
    }))
}

fn sql_of(options: Options, names: &[Text]) -> Result<Option<Command>, AllocError>
    ensures { IfOk result (λ c. c ≡ command_of Verb.Sql options names.now) }
{
    let [schema, folder, query] = names else {
        return Ok(None);
    };
    Ok(Some(Command::Sql {
        schema: schema.clone()?,
        folder: folder.clone()?,
        query: query.clone()?,
    }))
}

fn make_of(alloc: Global, options: Options, names: &[Text]) -> Result<Option<Command>, AllocError>
    ensures { IfOk result (λ c. c ≡ command_of Verb.Make options names.now) }
{
    let [count] = names else {
        return Ok(None);
    };
    match number_within(alloc, count.as_str(), 1, 100000)? {
        Some(count) => Ok(Some(Command::Make { count })),
        None => Ok(None),
    }
}

fn unnest_of(options: Options, names: &[Text]) -> Result<Option<Command>, AllocError>
    ensures { IfOk result (λ c. c ≡ command_of Verb.Unnest options names.now) }
{
    let [schema, source] = names else {
        return Ok(None);
    };
    Ok(Some(Command::Unnest {
        options,
        schema: schema.clone()?,
        source: source.clone()?,
    }))
}

fn narrow_of(options: Options, names: &[Text]) -> Result<Option<Command>, AllocError>
    ensures { IfOk result (λ c. c ≡ command_of Verb.Narrow options names.now) }
{
    let [schema, source] = names else {
        return Ok(None);
    };
    Ok(Some(Command::Narrow {
        options,
        schema: schema.clone()?,
        source: source.clone()?,
    }))
}

fn inline_of(options: Options, names: &[Text]) -> Result<Option<Command>, AllocError>
    ensures { IfOk result (λ c. c ≡ command_of Verb.Inline options names.now) }
{
    let [schema, source] = names else {
        return Ok(None);
    };
    Ok(Some(Command::Inline {
        schema: schema.clone()?,
        source: source.clone()?,
    }))
}

fn gather_of(options: Options, names: &[Text]) -> Result<Option<Command>, AllocError>
    ensures { IfOk result (λ c. c ≡ command_of Verb.Gather options names.now) }
{
    let [schema, source] = names else {
        return Ok(None);
    };
    Ok(Some(Command::Gather {
        options,
        schema: schema.clone()?,
        source: source.clone()?,
    }))
}

fn schema_of(options: Options, names: &[Text]) -> Result<Option<Command>, AllocError>
    ensures { IfOk result (λ c. c ≡ command_of Verb.Schema options names.now) }
{
    let [dump] = names else {
        return Ok(None);
    };
    Ok(Some(Command::Schema {
        options,
        dump: dump.clone()?,
    }))
}

fn view_of(options: Options, names: &[Text]) -> Result<Option<Command>, AllocError>
    ensures { IfOk result (λ c. c ≡ command_of Verb.View options names.now) }
{
    let [map, schema, source] = names else {
        return Ok(None);
    };
    Ok(Some(Command::View {
        map: map.clone()?,
        schema: schema.clone()?,
        source: source.clone()?,
    }))
}

fn entities_of(alloc: Global, names: &[Text]) -> Result<Option<Command>, AllocError>
    ensures { IfOk result (λ c. c ≡ entity_names names.now) }
{
    if names.is_empty() {
        return Ok(None);
    }
    Ok(Some(Command::Map {
        entities: copies(alloc, names)?,
    }))
}

fn schema_entities_of(alloc: Global, names: &[Text]) -> Result<Option<Command>, AllocError>
    ensures { IfOk result (λ c. c ≡ schema_entity_names names.now) }
{
    if names.is_empty() {
        return Ok(None);
    }
    Ok(Some(Command::MapSchema {
        entities: copies(alloc, names)?,
    }))
}

fn checked_map_of(names: &[Text]) -> Result<Option<Command>, AllocError>
    ensures { IfOk result (λ c. c ≡ checked_names names.now) }
{
    match names {
        [map, schema] => Ok(Some(Command::CheckMap {
            map: map.clone()?,
            schema: schema.clone()?,
            source: None,
        })),
        [map, schema, source] => Ok(Some(Command::CheckMap {
            map: map.clone()?,
            schema: schema.clone()?,
            source: Some(source.clone()?),
        })),
        _ => Ok(None),
    }
}

fn map_of(alloc: Global, options: Options, names: &[Text]) -> Result<Option<Command>, AllocError>
    ensures { IfOk result (λ c. c ≡ command_of Verb.Map options names.now) }
{
    match (options.check, options.schema) {
        (false, false) => entities_of(alloc, names),
        (false, true) => schema_entities_of(alloc, names),
        (true, false) => checked_map_of(names),
        (true, true) => Ok(None),
    }
}

// The command with its names; None where they aren't as many as it takes.
fn command_of(
    alloc: Global,
    verb: Verb,
    options: Options,
    names: &[Text],
) -> Result<Option<Command>, AllocError>
    ensures { IfOk result (λ c. c ≡ command_of verb options names.now) }
{
    match verb {
        Verb::Rewrite => rewrite_of(options, names),
        Verb::Prove => prove_of(options, names),
        Verb::Check => check_of(options, names),
        Verb::Run => run_of(alloc, options, names),
        Verb::Sql => sql_of(options, names),
        Verb::Make => make_of(alloc, options, names),
        Verb::Unnest => unnest_of(options, names),
        Verb::Narrow => narrow_of(options, names),
        Verb::Inline => inline_of(options, names),
        Verb::Gather => gather_of(options, names),
        Verb::Schema => schema_of(options, names),
        Verb::View => view_of(options, names),
        Verb::Map => map_of(alloc, options, names),
    }
}

// No option is set.
fn unset() -> Options
    ensures { result ≡ unset }
{
    Options {
        size: None,
        candidates: None,
        turns: None,
        rewritten: false,
        store: None,
        view: None,
        tables: None,
        columns: None,
        check: false,
        schema: false,
    }
}

// The command of a verb with the words after it.
fn command_with(alloc: Global, verb: Verb, words: &[Text]) -> Result<Option<Command>, AllocError>
    ensures { IfOk result (λ c. c ≡ command_with verb words.now) }
{
    let Some((options, rest)) = options_of(alloc, verb, words, unset())? else {
        return Ok(None);
    };
    let Some(names) = others_of(rest) else {
        return Ok(None);
    };
    command_of(alloc, verb, options, names)
}

/// The command of plain words; None exactly where the words aren't plain. `HasWords` says which
/// words are plain, and reading finds exactly them.
#[tactic(auto, using(crate::proofs::Exact::reads_plain_words))]
pub fn read_words(alloc: Global, words: &Words) -> Result<Option<Command>, AllocError>
    ensures read { IfOk result (λ command. command ≡ plain words.now) }
    ensures exact { ReadsPlainWords }
{
    let Some((word, rest)) = first_of(words.as_slice()) else {
        return Ok(None);
    };
    match verb_of(word.as_str()) {
        Some(verb) => command_with(alloc, verb, rest),
        None => Ok(None),
    }
}

/// SCHEMA of plain words of `rewrite`, `prove` or `run`, and None for all other words.
pub fn schema_word(alloc: Global, words: &Words) -> Result<Option<Text>, AllocError>
    ensures { IfOk result (λ name. name ≡ schema_in words.now) }
{
    match read_words(alloc, words)? {
        Some(Command::Rewrite { schema, .. }) => Ok(Some(schema)),
        Some(Command::Prove { schema, .. }) => Ok(Some(schema)),
        Some(Command::Run { schema, .. }) => Ok(Some(schema)),
        _ => Ok(None),
    }
}
