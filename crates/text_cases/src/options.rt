// What the words of a run set.
use crate::places::words_of;
use qbs_base::{NoMemory, Text};
use std::alloc::{AllocError, Global};
use words::{Command, Options, read_words};

fn put_number(out: &mut String, name: &str, value: Option<u64>) -> Result<(), AllocError> {
    match value {
        Some(number) => write!(out, "{name} {number}, "),
        None => write!(out, "no {name}, "),
    }
}

fn put_store(out: &mut String, store: &Option<Text>) -> Result<(), AllocError> {
    match store {
        Some(file) => {
            out.push_str("store ")?;
            out.push_str(file.as_str())
        }
        None => out.push_str("no store"),
    }
}

fn put_options(out: &mut String, options: &Options) -> Result<(), AllocError> {
    put_number(out, "size", options.size)?;
    put_number(out, "candidates", options.candidates)?;
    put_number(out, "turns", options.turns)?;
    out.push_str(if options.rewritten {
        "rewritten, "
    } else {
        "not rewritten, "
    })?;
    put_store(out, &options.store)
}

fn put_call(out: &mut String, method: &Text, arguments: &[Text]) -> Result<(), AllocError> {
    out.push_str(", method ")?;
    out.push_str(method.as_str())?;
    for argument in arguments {
        out.push_str(", argument ")?;
        out.push_str(argument.as_str())?;
    }
    Ok(())
}

fn put_set(out: &mut String, command: &Option<Command>) -> Result<(), NoMemory> {
    match command {
        Some(
            Command::Run {
                options,
                method,
                arguments,
                ..
            },
        ) => {
            put_options(out, options)?;
            Ok(put_call(out, method, arguments.as_slice())?)
        }
        _ => Ok(out.push_str("no run")?),
    }
}

/// Appends the options, the method and the arguments of a run of these words.
pub fn put_run(out: &mut String, alloc: Global, fields: &[Vec<u8>]) -> Result<(), NoMemory> {
    let words = words_of(alloc, fields)?;
    match read_words(alloc, &words) {
        Ok(command) => {
            let command = Box::new(alloc, command)?;
            put_set(out, &command)
        },
        Err(_) => Err(NoMemory),
    }
}
