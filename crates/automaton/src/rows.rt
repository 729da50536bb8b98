ghost use Rattle.std.specs.Prelude.{◌≤◌};

mod filling;

use crate::MOST_SYMBOLS;

/// The rows of a line, at most 160: for each symbol the set of the positions that admit it.
// An array and its length, since `Rows` is `Copy` for its callers, and the kit's `ArrayVec` is not.
#[derive(Clone, Copy)]
pub struct Rows {
    list: [u64; MOST_SYMBOLS],
    len: usize,
    ghost bound: { len ≤ 160 },
}
