//! Fields that are whole numbers, and the numbers of rows.
ghost use Rattle.std.specs.Prelude.{◌≡◌, ◌+◌, ◌≤◌, length};
ghost use Rattle.schema.specs.Rows.{long_of, most_rows};

use qbs_base::Rows;

/// The whole number of 64 bits that a field is: an optional sign and decimal digits.
pub fn long(field: &[u8]) -> Option<i64>
    ensures { result ≡ long_of field.now }
{
    let Ok(text) = str::from_utf8(field) else {
        return None;
    };
    text.parse::<i64>().ok()
}

/// The number of the row behind these, which are numbered from 1.
pub fn next_number(rows: &Rows) -> u64
    requires { length rows.now ≤ most_rows }
    ensures { result ≡ length rows.now + 1 }
{
    rows.len() as u64 + 1
}
