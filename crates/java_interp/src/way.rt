// How statements pass.

/// How a statement passes: on to what is behind it, out of the innermost loop, or out of the method
/// with what the machine holds as returned.
#[derive(Clone, Copy)]
pub enum Way {
    On,
    Leaves,
    Returns,
}
