// Stores, read from bytes.
ghost use Rattle.std.specs.Prelude.{◌≡◌, ◌-◌, List, length, IfOk, IfErr};
ghost use Rattle.readers.specs.Reading.{Gives};
ghost use Rattle.text_readers.specs.Answers.{IsOnly, IsRightFault, AnswersAt, left_of};
ghost use Rattle.small_dbs.specs.declared.small.SmallDb.{SmallDb as Item};
ghost use Rattle.proof_store.specs.Grammar.{HasStore};
ghost use Rattle.proof_store.specs.Reading.{read_all};

use crate::bank::Bank;
use crate::fault::StoreFault;
use crate::item::store;
use qbs_base::{Fail, Items};
use readers::{Fault, ReadError};
use schema::Schema;
use small_dbs::{SmallDb, SmallDbs};
use std::alloc::Global;
use text_readers::{offset_of, unexpected};

/// The fault by its offset in these bytes.
fn placed(bytes: &[u8], fault: Fault) -> StoreFault
    ensures { result.offset ≡ length bytes.now - left_of fault }
{
    StoreFault {
        offset: offset_of(bytes.len(), fault),
    }
}

/// The items of all of the bytes.
#[tactic(auto, unfolding(crate::specs::Reading::read_all))]
fn whole_store(alloc: Global, schema: &Schema, bytes: &[u8]) -> Result<Vec<SmallDb>, ReadError>
    ensures { Gives (λ v. v.items) result (read_all schema.now bytes.now) }
{
    let (items, rest) = store(alloc, schema, bytes)?;
    if rest.is_empty() {
        Ok(items)
    } else {
        Err(unexpected(rest))
    }
}

fn answer(alloc: Global, schema: &Schema, bytes: &[u8]) -> Result<SmallDbs, Fail<StoreFault>>
    ensures { AnswersAt (λ e. e.offset) (λ x. x) (length bytes.now) result (read_all schema.now bytes.now) }
{
    match whole_store(alloc, schema, bytes) {
        Ok(items) => Ok(Items::from_vec(items)),
        Err(ReadError::Memory) => Err(Fail::NoMemory),
        Err(ReadError::Fault(fault)) => Err(Fail::Fault(placed(bytes, fault))),
    }
}

fn read_items(alloc: Global, schema: &Schema, bytes: &[u8]) -> Result<SmallDbs, Fail<StoreFault>>
    ensures found { IfOk result (λ items. HasStore schema.now bytes.now items) }
    ensures only { (items : List Item) → HasStore schema.now bytes.now items → IsOnly (λ x. x) result items }
    ensures fault { IfErr result (IsRightFault (λ e. e.offset) (HasStore schema.now) bytes.now) }
{
    answer(alloc, schema, bytes)
}

/// The bank whose text the bytes are, under a schema: its tables and columns in order. Else the fault: the offset, in bytes, of the longest front
/// that begins a store.
pub fn read_store(alloc: Global, schema: &Schema, bytes: &[u8]) -> Result<Bank, Fail<StoreFault>>
    ensures found { IfOk result (λ b. HasStore schema.now bytes.now b) }
    ensures only { (items : List Item) → HasStore schema.now bytes.now items → IsOnly (λ b. b) result items }
    ensures fault { IfErr result (IsRightFault (λ e. e.offset) (HasStore schema.now) bytes.now) }
{
    match read_items(alloc, schema, bytes) {
        Ok(items) => Ok(Bank::of_items(items)),
        Err(fail) => Err(fail),
    }
}
