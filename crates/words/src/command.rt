// Commands, and what their options set.
use qbs_base::{Text, Words};

/// The word that a command begins with.
#[derive(Clone, Copy, PartialEq, Eq)]
pub enum Verb {
    Rewrite,
    Prove,
    Check,
    Run,
    Sql,
    Make,
    Unnest,
    Narrow,
    Inline,
    Gather,
    Schema,
    View,
    Map,
}

/// An option.
#[derive(Clone, Copy, PartialEq, Eq)]
pub enum Key {
    /// `--size N`, from 0 to 8.
    Size,
    /// `--candidates N`, from 1 to 1000000.
    Candidates,
    /// `--turns N`, from 1 to 100000000.
    Turns,
    /// `--rewritten`, which has no value.
    Rewritten,
    /// `--store FILE`.
    Store,
    /// `--view MAP`.
    View,
    /// `--tables NAME,..`.
    Tables,
    /// `--columns TABLE=NAME,..`.
    Columns,
    /// `--check`, which has no value.
    Check,
    /// `--schema`, which has no value.
    Schema,
}

/// What the options set. Each is set once at most.
#[derive(Clone, Drop)]
pub struct Options {
    pub size: Option<u64>,
    pub candidates: Option<u64>,
    pub turns: Option<u64>,
    pub rewritten: bool,
    pub store: Option<Text>,
    pub view: Option<Text>,
    pub tables: Option<Text>,
    pub columns: Option<Text>,
    pub check: bool,
    pub schema: bool,
}

/// A command and what it names. Texts are names of files and folders as they were given.
#[derive(Drop)]
pub enum Command {
    Rewrite {
        options: Options,
        schema: Text,
        source: Text,
    },
    Prove {
        options: Options,
        schema: Text,
        source: Text,
    },
    Check {
        options: Options,
        schema: Text,
        source: Text,
        bundle: Text,
    },
    Run {
        options: Options,
        schema: Text,
        source: Text,
        folder: Text,
        method: Text,
        arguments: Words,
    },
    Sql {
        schema: Text,
        folder: Text,
        query: Text,
    },
    /// From 1 to 100000.
    Make {
        count: u64,
    },
    Unnest {
        options: Options,
        schema: Text,
        source: Text,
    },
    Narrow {
        options: Options,
        schema: Text,
        source: Text,
    },
    Inline {
        schema: Text,
        source: Text,
    },
    Gather {
        options: Options,
        schema: Text,
        source: Text,
    },
    /// A schema as a database writes it, to be written in this language.
    Schema {
        options: Options,
        dump: Text,
    },
    /// What a map lets one see of a file.
    View {
        map: Text,
        schema: Text,
        source: Text,
    },
    /// A map of these files of entities, one at least.
    Map {
        entities: Words,
    },
    /// A schema of these files of entities, one at least.
    MapSchema {
        entities: Words,
    },
    /// A Java file that compiles only where the map is true: a class of its own, or the source with
    /// the checks in its class.
    CheckMap {
        map: Text,
        schema: Text,
        source: Option<Text>,
    },
}
