// What a fragment is lowered from.

use crate::numbering::counts::Counts;
use crate::numbering::numbers::Numbers;
use loop_setting::places::setting::Setting;

/// A loop in its setting, the numbers of its fragment, and its loops and flags as they are counted.
#[derive(Clone, Copy)]
pub struct Context<'l, 'a> {
    pub setting: &'l Setting<'a>,
    pub numbers: &'l Numbers<'a>,
    pub counts: &'l Counts,
}
