// The canonical text of a literal.
ghost use Rattle.std.specs.Prelude.{◌≡◌, ◌++◌, OnOk, string_bytes, codes};
ghost use Rattle.java_text.specs.Canonical.{word_if, canonical_integer, literal_text};

use qbs_base::{Scalar, push_text_literal};
use std::alloc::AllocError;

fn put_suffix(out: &mut String, wide: bool) -> Result<(), AllocError>
    ensures { OnOk result (string_bytes out.new ≡ string_bytes out.old ++ word_if wide (codes "L")) }
{
    if wide { out.push_str("L") } else { Ok(()) }
}

fn put_integer(out: &mut String, n: i64) -> Result<(), AllocError>
    ensures { OnOk result (string_bytes out.new ≡ string_bytes out.old ++ canonical_integer n) }
{
    if n == i64::MIN {
        return out.push_str("Long.MIN_VALUE");
    }
    write!(out, "{n}")?;
    put_suffix(out, n < -2147483648 || n > 2147483647)
}

pub fn put_literal(out: &mut String, value: &Scalar) -> Result<(), AllocError>
    ensures { OnOk result (string_bytes out.new ≡ string_bytes out.old ++ literal_text value.now) }
{
    match value {
        Scalar::Long(n) => put_integer(out, *n),
        Scalar::Bool(true) => out.push_str("true"),
        Scalar::Bool(false) => out.push_str("false"),
        Scalar::Text(text) => push_text_literal(out, text),
    }
}
