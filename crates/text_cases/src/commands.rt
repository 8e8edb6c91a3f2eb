// Words of command lines.
use crate::places::words_of;
use qbs_base::NoMemory;
use std::alloc::Global;
use words::read_words;

fn is_there<T: Drop>(value: Option<T>) -> bool {
    value.is_some()
}

/// Appends whether words are plain.
pub fn put_command(out: &mut String, alloc: Global, fields: &[Vec<u8>]) -> Result<(), NoMemory> {
    let words = words_of(alloc, fields)?;
    let is_plain = is_there(read_words(alloc, &words)?);
    out.push_str(if is_plain { "plain" } else { "not plain" })?;
    Ok(())
}
