// Texts of derivations and of bundles, and where they stop.
use deriv_check::{BundleFault, parse_bundle, parse_derivation, print_bundle, print_derivation};
use qbs_base::{Fail, NoMemory};
use std::alloc::{AllocError, Global};

// What a line stands for: in it `\n` is a line feed, and `\r` a carriage return.
fn text_of(alloc: Global, line: &str) -> Result<String, AllocError> {
    let mut text = String::new(alloc);
    let mut is_open = false;
    for c in line.chars() {
        if is_open {
            text.push(if c == 'r' { '\r' } else { '\n' })?;
        } else if c != '\\' {
            text.push(c)?;
        }
        is_open = c == '\\';
    }
    Ok(text)
}

// What was read is printed as the bytes that it was read from, or else as this text.
fn put_again(out: &mut String, bytes: &[u8], again: &str) -> Result<(), AllocError> {
    out.push_str(if again.as_bytes() == bytes {
        "read back"
    } else {
        again
    })
}

fn put_fail(out: &mut String, fail: &Fail<BundleFault>) -> Result<(), NoMemory> {
    match fail {
        Fail::Fault(fault) => {
            let offset = fault.offset;
            Ok(write!(out, "at {offset}")?)
        }
        Fail::NoMemory => Err(NoMemory),
    }
}

fn put_of_derivation(out: &mut String, alloc: Global, bytes: &[u8]) -> Result<(), NoMemory> {
    match parse_derivation(alloc, bytes) {
        Ok(derivation) => {
            let derivation = Box::new(alloc, derivation)?;
            let again = print_derivation(alloc, &derivation)?;
            Ok(put_again(out, bytes, again.as_str())?)
        }
        Err(fail) => put_fail(out, &fail),
    }
}

fn put_of_bundle(out: &mut String, alloc: Global, bytes: &[u8]) -> Result<(), NoMemory> {
    match parse_bundle(alloc, bytes) {
        Ok(bundle) => {
            let again = print_bundle(alloc, &bundle)?;
            Ok(put_again(out, bytes, again.as_str())?)
        }
        Err(fail) => put_fail(out, &fail),
    }
}

// Each text that this one begins with, from the empty one to itself.
fn put_cut(out: &mut String, alloc: Global, bytes: &[u8]) -> Result<(), NoMemory> {
    for count in 0..bytes.len() {
        let (front, _) = bytes.split_at(count);
        put_of_bundle(out, alloc, front)?;
        out.push(' ')?;
    }
    put_of_bundle(out, alloc, bytes)
}

/// Appends that a text is read back, or the offset of its first fault.
pub fn put_text(out: &mut String, alloc: Global, kind: &str, line: &str) -> Result<(), NoMemory> {
    let text = text_of(alloc, line)?;
    match kind {
        "derivation" => put_of_derivation(out, alloc, text.as_bytes())?,
        "bundle" => put_of_bundle(out, alloc, text.as_bytes())?,
        _ => put_cut(out, alloc, text.as_bytes())?,
    }
    out.push('\n')?;
    Ok(())
}
