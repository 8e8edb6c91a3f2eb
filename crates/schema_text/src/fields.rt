// The cells that fields stand for.
ghost use Rattle.std.specs.Prelude.{◌≡◌, Ok, IfOk, codes, Some, None, true, false};
ghost use Rattle.std.specs.Str.{bytes_eq};
ghost use Rattle.qbs_base.specs.Values.{HasTy};
ghost use Rattle.schema.specs.Rows.{text_of, cell_of};
ghost use Rattle.qbs_base.specs.Memory.{Answers};

use qbs_base::{Fail, NoMemory, Scalar, Text, Ty};
use schema::DataRule;
use schema::fields::long;
use std::alloc::Global;

/// The text that a field is, which is None where it isn't UTF-8.
fn text(alloc: Global, field: &[u8]) -> Result<Option<Text>, NoMemory>
    ensures { IfOk result (λ text. text ≡ text_of field.now) }
{
    let mut bytes = Vec::new(alloc);
    bytes.extend_from_slice(field)?;
    Ok(Text::from_vec(bytes))
}

/// What a field of a type stands for, or the rule that it breaks.
#[tactic(auto, unfolding(schema::specs::Rows::cell_of))]
pub fn cell(alloc: Global, ty: Ty, field: &[u8]) -> Result<Scalar, Fail<DataRule>>
    ensures { Answers result (cell_of ty field.now) }
{
    match ty {
        Ty::Long => match long(field) {
            Some(number) => Ok(Scalar::Long(number)),
            None => Err(Fail::Fault(DataRule::BadLong)),
        },
        Ty::Bool => {
            if field == b"true".as_slice() {
                Ok(Scalar::Bool(true))
            } else if field == b"false".as_slice() {
                Ok(Scalar::Bool(false))
            } else {
                Err(Fail::Fault(DataRule::BadBool))
            }
        }
        Ty::Text => match text(alloc, field)? {
            Some(text) => Ok(Scalar::Text(text)),
            None => Err(Fail::Fault(DataRule::BadUtf8)),
        },
    }
}

/// What a field of a type stands for, as in a table: a Long field is an optional sign and decimal digits in
/// the range of 64 bits, a Bool field `true` or `false`, a Text field any UTF-8. Otherwise the fault is
/// `BadLong`, `BadBool` or `BadUtf8`.
#[tactic(auto, using(crate::proofs::Typed::field_has))]
pub fn read_field(alloc: Global, ty: Ty, field: &[u8]) -> Result<Scalar, Fail<DataRule>>
    ensures value { Answers result (cell_of ty field.now) }
    ensures typed { IfOk result (λ x. HasTy ty x) }
{
    cell(alloc, ty, field)
}
