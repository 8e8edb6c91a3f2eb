// Formulas, written behind their parts: `0 !1 &` is that atom 0 holds and atom 1 doesn't.
use qbs_base::NoMemory;
use std::alloc::Global;
use tor_terms::Formula;

fn put_literal(open: &mut Vec<Box<Formula>>, alloc: Global, word: &str) -> Result<(), NoMemory> {
    let literal = match word.strip_prefix('!') {
        Some(atom) => Formula::Is(atom.parse().unwrap_or(0), false),
        None => Formula::Is(word.parse().unwrap_or(0), true),
    };
    open.push(Box::new(alloc, literal)?)?;
    Ok(())
}

fn join(open: &mut Vec<Box<Formula>>, alloc: Global, all: bool) -> Result<(), NoMemory> {
    if let (Some(g), Some(f)) = (open.pop(), open.pop()) {
        let joined = if all {
            Formula::Both(f, g)
        } else {
            Formula::Either(f, g)
        };
        open.push(Box::new(alloc, joined)?)?;
    }
    Ok(())
}

/// The formula of these words, or none.
pub fn formula_of(alloc: Global, words: &[&str]) -> Result<Option<Box<Formula>>, NoMemory> {
    let mut open = Vec::new(alloc);
    for word in words {
        match *word {
            "&" => join(&mut open, alloc, true)?,
            "|" => join(&mut open, alloc, false)?,
            "-" => {}
            _ => put_literal(&mut open, alloc, word)?,
        }
    }
    Ok(open.pop())
}
