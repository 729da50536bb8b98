// The nodes of a pattern's expression. A child stands in the table before its parent.

use crate::cutter::MOST_BYTES;

// A token makes at most two nodes.
pub(crate) const MOST_NODES: usize = 2 * MOST_BYTES;

// Tests and tags go by their numbers, which begin at 1; other numbers are places in the table, and no boxes, since nothing
// here allocates.
#[derive(Clone, Copy)]
pub enum Node {
    Test(u8),
    Seq(u8, u8),
    Or(u8, u8),
    Star(u8),
    Plus(u8),
    Opt(u8),
    Tag(u8, u8),
}
