// Texts between quotes.
ghost use Rattle.std.specs.Prelude.{◌≡◌, ◌++◌, OnOk, string_bytes};
ghost use Rattle.sql_ast.specs.Canonical.{doubled};

use qbs_base::NoMemory;

/// Appends a text with each quote twice.
pub fn put_doubled(out: &mut String, text: &str) -> Result<(), NoMemory>
    ensures { OnOk result (string_bytes out.new ≡ string_bytes out.old ++ doubled text.now) }
{
    let mut rest = text;
    while let Some((before, after)) = rest.split_once('\'') {
        out.push_str(before)?;
        out.push_str("''")?;
        rest = after;
    }
    out.push_str(rest)?;
    Ok(())
}
