//! Two events of one identifier and number, and who signed both.

use crate::blame_core::Culprit;
use cesr_codes::Prefix;
use lists::Items;

/// Two different establishment events of one identifier and number, and the witnesses of both that signed both.
#[derive(Drop, PartialEq, Debug)]
pub struct Blame {
    pub prefix: Prefix,
    pub sn: u64,
    /// The number of the first event's body in the first core.
    pub first: u32,
    /// The number of the second event's body in the second core.
    pub second: u32,
    /// In the order of the first event's own witness list.
    pub culprits: Items<Culprit>,
}
