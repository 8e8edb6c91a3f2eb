// Values by their types.
use qbs_base::Scalars;

/// A list of values for each type.
#[derive(Drop)]
pub struct Values {
    pub longs: Scalars,
    pub bools: Scalars,
    pub texts: Scalars,
}
