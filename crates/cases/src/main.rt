//! Reads files of cases, and prints for each case what is answered to it. The end of a file's name tells by which library.
#![tactic(auto)]

mod calls;
mod commands;
mod held;
mod prefixes;
mod split;

use anyhow::{Result, bail};
use qbs_base::NoMemory;
use std::alloc::Global;
use std::{env, fs};

// What is answered to the cases of a file of this name.
fn text_of_answers(alloc: Global, name: &str, cases: &str) -> Result<String, NoMemory> {
    if name.ends_with(".tsv") {
        return text_cases::text_of_answers(alloc, cases);
    }
    if name.ends_with(".search") {
        return search_cases::text_of_answers(alloc, cases);
    }
    if name.ends_with(".terms") {
        return term_cases::text_of_answers(alloc, cases);
    }
    if name.ends_with(".loops") {
        return loop_cases::text_of_answers(alloc, cases);
    }
    if name.ends_with(".rewrite") {
        return rewrite_cases::text_of_answers(alloc, cases);
    }
    if name.ends_with(".commands") {
        return commands::text_of_answers(alloc, cases);
    }
    Ok(String::new(alloc))
}

fn main(rt: HostRuntime) -> Result<()> {
    for name in env::args(&rt)?.skip(1) {
        let cases = fs::read_to_string(&rt, name.as_str())?;
        match text_of_answers(rt.alloc(), name.as_str(), cases.as_str()) {
            Ok(text) => print!(rt; "{text}")?,
            Err(NoMemory) => bail!("no memory"),
        }
    }
    Ok(())
}
