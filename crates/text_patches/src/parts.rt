// Parts of a source by the numbers of its bytes.
ghost use Rattle.std.specs.Prelude.{◌≡◌, take, drop};
ghost use Rattle.text_patches.specs.Patching.{stretch as stretch_of};

/// The bytes from a number on: none where there are no more.
pub fn bytes_from(bytes: &[u8], from: u64) -> &[u8]
    ensures { result.now ≡ drop from bytes.now }
{
    if from < bytes.len() as u64 {
        &bytes[from as usize..]
    } else {
        &[]
    }
}

/// The bytes up to a number: all where there are no more.
pub fn bytes_to(bytes: &[u8], to: u64) -> &[u8]
    ensures { result.now ≡ take to bytes.now }
{
    if to < bytes.len() as u64 {
        &bytes[..to as usize]
    } else {
        bytes
    }
}

/// The bytes from one number to another: none where the second isn't larger.
pub fn stretch(bytes: &[u8], from: u64, to: u64) -> &[u8]
    ensures { result.now ≡ stretch_of bytes.now from to }
{
    bytes_to(bytes_from(bytes, from), to.saturating_sub(from))
}
