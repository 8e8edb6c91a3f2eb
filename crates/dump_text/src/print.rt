// The text of a schema with comments.
ghost use Rattle.std.specs.Prelude.{◌≡◌, ◌++◌, IfOk, OnOk, map, codes};
ghost use Rattle.dump_text.specs.Text as specs;

use crate::{Entry, Part, WrittenColumn, WrittenTable};
use qbs_base::{Bytes, Column, Name, NoMemory, Ty};
use std::alloc::Global;

/// A byte of a comment: a control byte is a space, so that no comment ends early.
fn plain(byte: u8) -> u8
    ensures { result ≡ specs.plain byte }
{
    if byte < b' ' || byte == 127 {
        b' '
    } else {
        byte
    }
}

fn push_plain(out: &mut Vec<u8>, comment: &[u8]) -> Result<(), NoMemory>
    ensures { OnOk result (out.new.items ≡ out.old.items ++ map specs.plain comment.now) }
{
    for byte in comment {
        out.push(plain(*byte))?;
    }
    Ok(())
}

fn push_comment(out: &mut Vec<u8>, comment: &[u8]) -> Result<(), NoMemory>
    ensures { OnOk result (out.new.items ≡ out.old.items ++ specs.comment_text comment.now) }
{
    out.extend_from_slice(b"-- ")?;
    push_plain(out, comment)
}

/// A comment behind a column.
fn push_note(out: &mut Vec<u8>, note: &[u8]) -> Result<(), NoMemory>
    ensures { OnOk result (out.new.items ≡ out.old.items ++ specs.note_text note.now) }
{
    match note {
        [] => Ok(()),
        [_, ..] => {
            out.extend_from_slice(b" ")?;
            push_comment(out, note)
        }
    }
}

fn type_text(ty: Ty) -> &'static str
    ensures { result.now ≡ specs.type_text ty }
{
    match ty {
        Ty::Long => "BIGINT",
        Ty::Bool => "BOOLEAN",
        Ty::Text => "TEXT",
    }
}

fn push_if(out: &mut Vec<u8>, wanted: bool, text: &str) -> Result<(), NoMemory>
    ensures { OnOk result (out.new.items ≡ out.old.items ++ specs.text_if wanted text.now) }
{
    if wanted {
        out.extend_from_slice(text.as_bytes())?;
    }
    Ok(())
}

fn push_marks(out: &mut Vec<u8>, column: &Column) -> Result<(), NoMemory>
    ensures { OnOk result (out.new.items ≡ out.old.items ++ specs.marks_text column.now) }
{
    push_if(out, column.not_null, " NOT NULL")?;
    push_if(out, column.primary, " PRIMARY KEY")?;
    Ok(())
}

fn push_column(out: &mut Vec<u8>, column: &Column) -> Result<(), NoMemory>
    ensures { OnOk result (out.new.items ≡ out.old.items ++ specs.column_text column.now) }
{
    out.extend_from_slice(column.name.as_slice())?;
    out.extend_from_slice(b" ")?;
    out.extend_from_slice(type_text(column.ty).as_bytes())?;
    push_marks(out, column)?;
    Ok(())
}

/// Whether some column is among these lines.
pub fn has_column(parts: &[Part]) -> bool
    ensures { result ≡ specs.has_column parts.now }
{
    for part in parts {
        if let Part::Column(_) = part {
            return true;
        }
    }
    false
}

/// The line of a column that these lines stand behind.
fn push_written(out: &mut Vec<u8>, written: &WrittenColumn, rest: &[Part]) -> Result<(), NoMemory>
    ensures { OnOk result (out.new.items ≡ out.old.items ++ specs.written_text written.now rest.now) }
{
    out.extend_from_slice(b"    ")?;
    push_column(out, &written.column)?;
    push_if(out, has_column(rest), ",")?;
    push_note(out, written.note.as_slice())?;
    out.extend_from_slice(b"\n")?;
    Ok(())
}

fn push_remark(out: &mut Vec<u8>, comment: &[u8]) -> Result<(), NoMemory>
    ensures { OnOk result (out.new.items ≡ out.old.items ++ specs.remark_text comment.now) }
{
    out.extend_from_slice(b"    ")?;
    push_comment(out, comment)?;
    out.extend_from_slice(b"\n")?;
    Ok(())
}

/// A line that these lines stand behind.
fn push_part(out: &mut Vec<u8>, part: &Part, rest: &[Part]) -> Result<(), NoMemory>
    ensures { OnOk result (out.new.items ≡ out.old.items ++ specs.part_text part.now rest.now) }
{
    match part {
        Part::Column(written) => push_written(out, written, rest),
        Part::Comment(comment) => push_remark(out, comment.as_slice()),
    }
}

fn push_parts(out: &mut Vec<u8>, parts: &[Part]) -> Result<(), NoMemory>
    ensures { OnOk result (out.new.items ≡ out.old.items ++ specs.parts_text parts.now) }
{
    let mut rest = parts;
    while let [part, after @ ..] = rest {
        push_part(out, part, after)?;
        rest = after;
    }
    Ok(())
}

/// The line that opens a table.
fn push_head(out: &mut Vec<u8>, name: &Name) -> Result<(), NoMemory>
    ensures { OnOk result (out.new.items ≡ out.old.items ++ specs.head_text name.now) }
{
    out.extend_from_slice(b"CREATE TABLE ")?;
    out.extend_from_slice(name.as_slice())?;
    out.extend_from_slice(b" (\n")?;
    Ok(())
}

fn push_table(out: &mut Vec<u8>, table: &WrittenTable) -> Result<(), NoMemory>
    ensures { OnOk result (out.new.items ≡ out.old.items ++ specs.table_text table.now) }
{
    push_head(out, &table.name)?;
    push_parts(out, table.parts.as_slice())?;
    out.extend_from_slice(b");\n")?;
    Ok(())
}

fn push_entry(out: &mut Vec<u8>, entry: &Entry) -> Result<(), NoMemory>
    ensures { OnOk result (out.new.items ≡ out.old.items ++ specs.entry_text entry.now) }
{
    match entry {
        Entry::Table(table) => push_table(out, table),
        Entry::Comment(comment) => {
            push_comment(out, comment.as_slice())?;
            out.extend_from_slice(b"\n")?;
            Ok(())
        }
    }
}

fn push_further(out: &mut Vec<u8>, entries: &[Entry]) -> Result<(), NoMemory>
    ensures { OnOk result (out.new.items ≡ out.old.items ++ specs.further_text entries.now) }
{
    for entry in entries {
        out.extend_from_slice(b"\n")?;
        push_entry(out, entry)?;
    }
    Ok(())
}

/// Appends the text of a schema with comments: an empty line between two entries, a line for each column and each comment inside of a
/// table. Control bytes in comments, line feeds too, are written as spaces. It fails only by want of memory.
#[tactic(auto, unfolding(crate::specs::Text::text_of))]
pub fn push_schema(out: &mut Vec<u8>, entries: &[Entry]) -> Result<(), NoMemory>
    ensures { OnOk result (out.new.items ≡ out.old.items ++ specs.text_of entries.now) }
{
    match entries {
        [] => Ok(()),
        [first, rest @ ..] => {
            push_entry(out, first)?;
            push_further(out, rest)
        }
    }
}

/// The text of a schema with comments, as `push_schema` writes it.
pub fn schema_text(alloc: Global, entries: &[Entry]) -> Result<Bytes, NoMemory>
    ensures { IfOk result (λ text. text ≡ specs.text_of entries.now) }
{
    let mut out = Vec::new(alloc);
    push_schema(&mut out, entries)?;
    Ok(Bytes::from_vec(out))
}
