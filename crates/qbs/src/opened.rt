// What `rewrite` and `prove` begin with: files, and what they hold.
ghost use Rattle.std.specs.Prelude.{◌≡◌, ◌++◌, ◌∷◌, codes, IfOk, string_bytes};
ghost use Rattle.std.specs.Fmt.{decimal};
ghost use Rattle.java_ast.specs.Reading.{program as plain_program};
ghost use Rattle.verdicts.specs.Lines.{line};
ghost use Rattle.proof_store.specs.Grammar.{HasStore};
ghost use Rattle.deliveries.specs.Code.{Goes, StopsWith};
ghost use Rattle.deliveries.specs.Plan.{given};
ghost use Rattle.deliveries.specs.Reads.{looks, OnlyReads};
ghost use Rattle.deliveries.specs.Steps.{refused};
ghost use Rattle.qbs.specs.Opened.{reads_all, AreRead, none_due, has_all, AreOpened, none_held};
ghost use Rattle.qbs.specs.Store.{store_names, IsStoreRead, IsStoreUnread, IsBankOf, HasNoBank, BreaksStore, store_refusal};

use deliveries::Plan;
use deliveries::fetch::{MOST_STORE, Stop, fetch, fetch_schema, fetch_source};
use files_sinks::Files;
use java_types::Typed;
use plans::opening::{open_program, open_schema};
use proof_store::{Bank, StoreFault, read_store};
use qbs_base::{Bytes, Fail, Status, Text};
use schema::Schema;
use std::alloc::{AllocError, Global};

// ---- Files

/// The bytes of a schema, of a source, and of a store, where words name one.
#[derive(Drop)]
pub struct Fetched {
    pub schema: Bytes,
    pub source: Bytes,
    pub store: Option<Bytes>,
}

// The bytes of the store that words name, which has 16 MiB at most.
fn fetch_store<F: Files>(
    alloc: Global,
    files: &mut F,
    name: &Option<Text>,
) -> Result<Option<Bytes>, Stop>
    ensures reads { OnlyReads (looks F.told F.faults F.may_fail F.by_read) (store_names name.now) files.old files.new }
    ensures read { Goes result (IsStoreRead (given F.told F.faults F.may_fail files.old files.new) name.now)
        (IsStoreUnread (given F.told F.faults F.may_fail files.old files.new) name.now) }
{
    match name {
        None => Ok(None),
        Some(name) => {
            let bytes = fetch(alloc, files, name, MOST_STORE, "store")?;
            Ok(Some(bytes))
        }
    }
}

/// The bytes of the files, read in their order, or what is due without one of them.
pub fn fetch_files<F: Files>(
    alloc: Global,
    files: &mut F,
    schema: &Text,
    source: &Text,
    store: &Option<Text>,
) -> Result<Box<Fetched>, Stop>
    ensures reads { OnlyReads (looks F.told F.faults F.may_fail F.by_read) (schema.now ∷ source.now ∷ store_names store.now) files.old files.new }
    ensures read { Goes result
        (λ f. AreRead (given F.told F.faults F.may_fail files.old files.new) schema.now source.now store.now f.value.schema f.value.source f.value.store)
        (reads_all (given F.told F.faults F.may_fail files.old files.new) schema.now source.now store.now none_due) }
{
    let schema = fetch_schema(alloc, files, schema)?;
    let source = fetch_source(alloc, files, source)?;
    let store = fetch_store(alloc, files, store)?;
    Ok(Box::new(
        alloc,
        Fetched {
            schema,
            source,
            store,
        },
    )?)
}

// ---- What they hold

/// A schema, a well-typed program under it, and the bank of a store of it, where there is one.
#[derive(Drop)]
pub struct Opened {
    pub schema: Schema,
    pub typed: Typed,
    pub bank: Option<Bank>,
}

fn fault_line(alloc: Global, offset: u64) -> Result<String, AllocError>
    ensures { IfOk result (λ s. string_bytes s ≡ line (codes "qbs: store: at " ++ decimal offset)) }
{
    let text = format!(in alloc; "qbs: store: at {offset}\n")?;
    Ok(text)
}

// The refusal of bytes that are no store.
fn store_refused(alloc: Global, fault: &StoreFault) -> Stop
    ensures { StopsWith (store_refusal fault.now) result }
{
    match fault_line(alloc, fault.offset) {
        Ok(line) => Stop::Due(Plan {
            status: Status::Store,
            out: Bytes::new(alloc),
            rep: Bytes::from_vec(line.into_bytes()),
        }),
        Err(_) => Stop::Memory,
    }
}

// The bank of a store's bytes, or the refusal of the first byte with which no store goes on.
#[tactic(auto, using(crate::proofs::Banked::bank_stops))]
fn open_bank(alloc: Global, schema: &Schema, bytes: &[u8]) -> Result<Bank, Stop>
    ensures { Goes result (HasStore schema.now bytes.now) (refused (BreaksStore schema.now bytes.now) store_refusal) }
{
    match read_store(alloc, schema, bytes) {
        Ok(bank) => Ok(bank),
        Err(Fail::Fault(fault)) => Err(store_refused(alloc, &fault)),
        Err(Fail::NoMemory) => Err(Stop::Memory),
    }
}

// The bank of a store, where there is one.
pub fn open_store(
    alloc: Global,
    schema: &Schema,
    bytes: &Option<Bytes>,
) -> Result<Option<Bank>, Stop>
    ensures { Goes result (IsBankOf schema.now bytes.now) (HasNoBank schema.now bytes.now) }
{
    match bytes {
        None => Ok(None),
        Some(bytes) => {
            let bank = open_bank(alloc, schema, bytes.as_slice())?;
            Ok(Some(bank))
        }
    }
}

/// What the files hold, told apart in their order, or the refusal of what one of them lacks.
pub fn open_files(alloc: Global, files: &Fetched) -> Result<Box<Opened>, Stop>
    ensures { Goes result
        (λ o. AreOpened files.now.schema files.now.source files.now.store o.value.schema (plain_program o.value.typed.program) o.value.bank)
        (has_all files.now.schema files.now.source files.now.store none_held) }
{
    let schema = open_schema(alloc, files.schema.as_slice())?;
    let typed = open_program(alloc, &schema, files.source.as_slice())?;
    let bank = open_store(alloc, &schema, &files.store)?;
    Ok(Box::new(
        alloc,
        Opened {
            schema,
            typed,
            bank,
        },
    )?)
}
