//! The program: the real files and streams, handed to the top call.
#![tactic(auto)]

ghost use Rattle.std.specs.Prelude.{◌≡◌};
ghost use Rattle.kernel_lang.specs.declared.prune.PruneAnswer.TheVariants as answers;
ghost use Rattle.kernel_lang.specs.Pools.{IsCandidateOf};
ghost use Rattle.kernel_lang.specs.Refuted.{IsRefuted};
ghost use Rattle.kernel_lang.specs.Whole.{fragment_of};

mod read_once;

use files_sinks::{Files, ReadAnswer, RealFiles, RealSink, Sink};
use kernel_lang::{Candidate, KFragment, PruneAnswer};
use qbs::{MOST_SCHEMA, qbs_main, refuse_for_memory, schema_word};
use qbs_base::{Status, Text, Words};
use query_search::{Call, Pruner};
use read_once::ReadOnce;
use schema::Schema;
use schema_text::parse_schema;
use small_dbs::Remembering;
use std::alloc::Global;
use std::cell::Cell;
use std::process::ExitCode;
use std::rt::Env;
use std::{env, io};

// The words after the program's own name.
fn words_of<R: Env + AllocGlobal>(rt: &R) -> io::Result<Words> {
    let mut words = Vec::new(rt.alloc());
    for word in env::args(rt)?.skip(1) {
        words.push(Text::from_string(word))?;
    }
    Ok(Words::from_vec(words))
}

// The schema that was read, where it is one.
fn schema_of(alloc: Global, answer: &ReadAnswer) -> Option<Schema> {
    match answer {
        ReadAnswer::Ok(bytes) => match parse_schema(alloc, bytes.as_slice()) {
            Ok(schema) => Some(schema),
            Err(_) => None,
        },
        _ => None,
    }
}

// What a pruner answers that is out of its cell while it is asked, and put back behind that: so it is there each time.
fn ask_kept(
    alloc: Global,
    kept: &Cell<Option<Remembering>>,
    frag: &KFragment,
    cand: &Candidate,
) -> PruneAnswer
    requires { IsCandidateOf (fragment_of frag.now) cand.now }
    ensures { result ≡ answers.Drop → ∥ IsRefuted (fragment_of frag.now) cand.now ∥₁ }
{
    let Some(own) = kept.take() else {
        return PruneAnswer::Keep;
    };
    let mut own = own;
    let answer = own.ask(alloc, frag, cand);
    kept.set(Some(own));
    answer
}

// The pruner over a schema, where there is memory for it.
fn pruned<F: Files, O: Sink, E: Sink>(
    alloc: Global,
    words: &Words,
    schema: Schema,
    files: &mut F,
    out: &mut O,
    rep: &mut E,
) -> Status {
    let kept = Cell::new(Some(Remembering::new(alloc, schema)));
    let ask = move |frag: &KFragment, cand: &Candidate|
        requires { IsCandidateOf (fragment_of frag.now) cand.now }
        ensures { result ≡ answers.Drop → ∥ IsRefuted (fragment_of frag.now) cand.now ∥₁ }
    { ask_kept(alloc, &kept, frag, cand) };
    match Box::new(alloc, ask) {
        Ok(boxed) => {
            let call: Call = boxed;
            let pruners = [Pruner::new(call)];
            qbs_main(alloc, words, files, out, rep, &pruners)
        }
        Err(_) => qbs_main(alloc, words, files, out, rep, &[]),
    }
}

// A word that isn't UTF-8 is no plain word, as is no word at all.
fn main(rt: HostRuntime) -> ExitCode {
    let alloc: Global = rt.alloc();
    let mut rep = RealSink::new(rt.stderr());
    let words = match words_of(&rt) {
        Ok(words) => words,
        Err(e) => match e.kind() {
            io::ErrorKind::OutOfMemory => {
                return ExitCode::from(refuse_for_memory(&mut rep).code());
            }
            _ => Words::new(alloc),
        },
    };
    let mut files = RealFiles::new(&rt);
    let mut out = RealSink::new(rt.stdout());
    let status = match schema_word(alloc, &words) {
        Err(_) => refuse_for_memory(&mut rep),
        Ok(None) => qbs_main(alloc, &words, &mut files, &mut out, &mut rep, &[]),
        Ok(Some(name)) => {
            // (the schema may come through a pipe, and is read once)
            let answer = files.read_all(alloc, &name, MOST_SCHEMA);
            let schema = schema_of(alloc, &answer);
            let mut files = ReadOnce::new(files, &name, answer);
            match schema {
                Some(schema) => pruned(alloc, &words, schema, &mut files, &mut out, &mut rep),
                None => qbs_main(alloc, &words, &mut files, &mut out, &mut rep, &[]),
            }
        }
    };
    ExitCode::from(status.code())
}
