// What is to be answered and written, before anything is written.
use qbs_base::{Bytes, Status};

/// A status, the text for the output and the text for the report.
#[derive(Drop)]
pub struct Plan {
    pub status: Status,
    pub out: Bytes,
    pub rep: Bytes,
}
