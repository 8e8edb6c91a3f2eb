// The records of a text, one after the other.
ghost use Rattle.std.specs.Prelude.{◌≡◌, ◌∷◌, [], true, false, IfOk};
ghost use Rattle.csv.specs.Records.{fields_of};
ghost use Rattle.schema.specs.Csv.{IsReading, records_in};
ghost use Rattle.schema.specs.Rows.{records_of};

use csv::{ByteRecord, Reader, ReaderBuilder};
use qbs_base::NoMemory;
use std::alloc::Global;

/// A reader of all records of a text: none is a header, and they may differ in width.
pub fn open_records(alloc: Global, bytes: &[u8]) -> Reader<&[u8]>
    ensures reading { IsReading result }
    ensures records { records_in result ≡ records_of bytes.now }
{
    ReaderBuilder::new()
        .has_headers(false)
        .flexible(true)
        .from_reader(alloc, bytes)
}

/// Whether there is a next record, which then stands in `record`. Of bytes in memory, with records
/// of any width, nothing can fail but memory.
pub fn next_record(reader: &mut Reader<&[u8]>, record: &mut ByteRecord) -> Result<bool, NoMemory>
    requires { IsReading reader.old }
    ensures reading { IfOk result (λ found. found ≡ true → IsReading reader.new) }
    ensures found { IfOk result (λ found. found ≡ true → records_in reader.old ≡ fields_of record.new ∷ records_in reader.new) }
    ensures none { IfOk result (λ found. found ≡ false → records_in reader.old ≡ []) }
{
    let Ok(found) = reader.read_byte_record(record) else {
        return Err(NoMemory);
    };
    Ok(found)
}
