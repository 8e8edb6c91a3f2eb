// Java types as far as they are seen.
use view_map::{ScalarKind, ScalarType};

/// What Java takes an expression or a variable for. A class is meant by its number in the map.
#[derive(Clone, Copy, PartialEq, Eq)]
pub enum JavaType {
    Scalar(ScalarType),
    /// A row of a class.
    Row(u32),
    /// A `List` of a class.
    Rows(u32),
    /// A `List` of a boxed type, or of texts.
    Scalars(ScalarKind),
    /// A `Set` of a boxed type, or of texts.
    Distinct(ScalarKind),
}
