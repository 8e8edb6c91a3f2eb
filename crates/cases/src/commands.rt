// Files of cases of commands. A line that begins with `==== ` begins a part, and the lines up to the next one are the part's text. The first word
// of that line tells the kind. A file is held for all commands behind it, under a name that no other has.
//
// - `file NAME` holds the text under that name. A last line of `----` takes away the end of the line before it.
// - `lines NAME` holds lines, each given by how often it stands there and itself, and `pieces NAME` the same without the lines' ends.
// - `copy NAME OF` holds the bytes of the file OF once more.
// - `padded NAME LENGTH OF` holds the bytes of the file OF and blanks behind them, up to that length.
// - `fails WHO CALL` has that call of `files`, `out` or `rep` fail in the next command.
// - `room BYTES` gives `out` that room in the next command, in the place of 1000 bytes.
// - `command WORDS` carries out a command. The text, where there is one, is one word more.
// - `clean WORDS` carries out a command over files and sinks that never fail.
// - `prefixes NAME LESS STATUS` carries out the commands of the text, one a line, over the prefixes of that file that lack at least LESS bytes.
ghost use Rattle.std.specs.Prelude.{◌≡◌, ◌++◌, [], ◌∷◌, ℕ, List, IfOk, OnOk, OnErr, codes, string_bytes};
ghost use Rattle.cases.specs.Lines.{first_word, rest_of};
ghost use Rattle.cases.specs.Files.{entries_of, entry_made, entries_added, bytes_made};
ghost use Rattle.cases.specs.Answers.{whole_ends, IsShown, Extends, ends_after};

use crate::calls::{Ends, failing, put_clean, put_command, whole};
use crate::held::{File, filled, padded_of, repeated};
use crate::prefixes::{Prefixes, put_prefixes};
use crate::split::{first_and_rest, number_of, words_of};
use qbs_base::NoMemory;
use std::alloc::Global;

// What is held so far, and the ends of the next command.
#[derive(Drop)]
struct Held {
    files: Vec<File>,
    ends: Ends,
}

// The bytes of a file that is made by the rule of its kind.
fn bytes_by(
    alloc: Global,
    files: &[File],
    kind: &str,
    rule: &str,
    text: &str,
) -> Result<Vec<u8>, NoMemory>
    ensures { IfOk result (λ v. v.items ≡ bytes_made files.now kind.now rule.now text.now) }
{
    match kind {
        "lines" => repeated(alloc, text, "\n"),
        "pieces" => repeated(alloc, text, ""),
        "padded" => {
            let (length, of) = first_and_rest(rule);
            padded_of(alloc, files, of, number_of(length))
        }
        "copy" => padded_of(alloc, files, rule, 0),
        _ => filled(alloc, text),
    }
}

fn hold(
    files: &mut Vec<File>,
    alloc: Global,
    kind: &str,
    line: &str,
    text: &str,
) -> Result<(), NoMemory>
    ensures ok { OnOk result (entries_of files.new.items ≡ entries_of files.old.items ++ entry_made files.old.items kind.now line.now text.now ∷ []) }
    ensures err { OnErr result (files.new.items ≡ files.old.items) }
{
    let (name, rule) = first_and_rest(line);
    let bytes = bytes_by(alloc, files.as_slice(), kind, rule, text)?;
    let name = String::from_str(alloc, name)?;
    files.push(File { name, bytes })?;
    Ok(())
}

fn put_carried(
    out: &mut String,
    alloc: Global,
    held: &mut Held,
    line: &str,
    text: &str,
) -> Result<(), NoMemory>
    ensures files { held.new.files ≡ held.old.files }
    ensures ends { OnOk result (held.new.ends ≡ whole_ends) }
    ensures text { OnOk result ((added : List ℕ) × IsShown added × (string_bytes out.new ≡ string_bytes out.old ++ added)) }
{
    let words = words_of(alloc, line, text)?;
    put_command(out, alloc, held.files.as_slice(), held.ends, &words)?;
    held.ends = whole();
    Ok(())
}

fn put_all_prefixes(
    out: &mut String,
    alloc: Global,
    files: &[File],
    line: &str,
    text: &str,
) -> Result<(), NoMemory>
    ensures { OnOk result (Extends (string_bytes out.old ++ codes "==== prefixes\n") (string_bytes out.new)) }
{
    let (name, rest) = first_and_rest(line);
    let (less, status) = first_and_rest(rest);
    let prefixes = Prefixes {
        name,
        less: number_of(less),
        status: number_of(status),
    };
    out.push_str("==== prefixes\n")?;
    for command in text.split('\n') {
        put_prefixes(out, alloc, files, &prefixes, command)?;
    }
    Ok(())
}

fn put_part(
    out: &mut String,
    alloc: Global,
    held: &mut Held,
    head: &str,
    text: &str,
) -> Result<(), NoMemory>
    ensures files { OnOk result (entries_of held.new.files.items ≡ entries_of held.old.files.items ++ entries_added held.old.files.items head.now text.now) }
    ensures ends { OnOk result (held.new.ends ≡ ends_after held.old.ends (first_word head.now) (rest_of head.now)) }
    ensures text { OnOk result (Extends (string_bytes out.old) (string_bytes out.new)) }
{
    let (kind, line) = first_and_rest(head);
    match kind {
        "fails" => {
            held.ends = failing(held.ends, line);
            Ok(())
        }
        "room" => {
            held.ends.room = number_of(line);
            Ok(())
        }
        "command" => put_carried(out, alloc, held, line, text),
        "clean" => {
            let words = words_of(alloc, line, text)?;
            put_clean(out, alloc, held.files.as_slice(), &words)
        }
        "prefixes" => put_all_prefixes(out, alloc, held.files.as_slice(), line, text),
        _ => hold(&mut held.files, alloc, kind, line, text),
    }
}

/// What comes of the commands of a file, one after the other.
pub fn text_of_answers(alloc: Global, cases: &str) -> Result<String, NoMemory> {
    let mut out = String::new(alloc);
    let mut held = Held {
        files: Vec::new(alloc),
        ends: whole(),
    };
    let cases = cases.strip_suffix('\n').unwrap_or(cases);
    let cases = cases.strip_prefix("==== ").unwrap_or(cases);
    for part in cases.split("\n==== ") {
        let (head, text) = part.split_once('\n').unwrap_or((part, ""));
        put_part(&mut out, alloc, &mut held, head, text)?;
    }
    Ok(out)
}
