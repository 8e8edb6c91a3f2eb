// Texts of parts, of which two stand as often as is said.
use std::alloc::{AllocError, Global};

/// The number of these digits.
pub fn count_of(digits: &[u8]) -> u32 {
    let mut count: u32 = 0;
    for digit in digits {
        count = count
            .wrapping_mul(10)
            .wrapping_add(digit.wrapping_sub(b'0') as u32);
    }
    count
}

fn put_often(text: &mut Vec<u8>, part: &[u8], count: u32) -> Result<(), AllocError> {
    for _ in 0..count {
        text.extend_from_slice(part)?;
    }
    Ok(())
}

/// The fields joined. Of six, the second and the fifth stand as often as the third says.
pub fn source_of(alloc: Global, fields: &[Vec<u8>]) -> Result<Vec<u8>, AllocError> {
    let mut text = Vec::new(alloc);
    if let [front, open, count, middle, close, back] = fields {
        let count = count_of(count);
        text.extend_from_slice(front)?;
        put_often(&mut text, open, count)?;
        text.extend_from_slice(middle)?;
        put_often(&mut text, close, count)?;
        text.extend_from_slice(back)?;
    } else {
        for part in fields {
            text.extend_from_slice(part)?;
        }
    }
    Ok(text)
}
