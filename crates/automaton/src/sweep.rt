ghost use Rattle.std.specs.Prelude.{◌≡◌, ℕ, ◌+◌, ◌<◌, ◌≤◌, length, MatchOption, IfSome, Some, None, if◌then◌else◌, nat_lt, ◌-◌, slice_index, slice_index_or};
ghost use Rattle.std.specs.Iterator.{at_most};
ghost use Rattle.automaton.specs.Bit.{In};
ghost use Rattle.automaton.specs.RowList.{rows_of};
ghost use Rattle.automaton.specs.Reads.{Reads};
ghost use Rattle.automaton.specs.Stretches.{Longest, NoneReads, Marks};

use crate::machine::Automaton;
use crate::positions::Positions;
use crate::rows::Rows;
use crate::{MOST_SYMBOLS, POSITIONS};

// The positions that walks have reached, in groups by the start of the walk. A position that is reached from several starts stands in
// the group of the least, so the groups have no position in common.
// Two arrays and a count for speed: with an `ArrayVec` of groups the case `opt160` of `bench` took twice as long as with these, and with an
// array of groups a tenth longer.
#[derive(Drop)]
struct Active {
    count: usize,
    starts: [u8; MOST_SYMBOLS],
    sets: [u64; MOST_SYMBOLS],
}

// A sweep over the rows of a line, with the groups after the symbols that are read. That the groups are those is said by the clause
// `Swept` and by no ghost field: it gives a walk for each position, and a ghost field may hold no data.
#[derive(Drop)]
struct Sweep<'a> {
    automaton: &'a Automaton,
    rows: &'a [u64],
    read: usize,
    active: Active,
    ghost short: { length rows.now ≤ 160 },
    ghost within: { read ≤ length rows.now },
}

// The positions that may follow one of a set.
fn onward(follow: &[u64; POSITIONS], positions: u64) -> u64
    ensures sound { (q : ℕ) → In result q → ((p : ℕ) × In positions p × In (slice_index follow.now p) q) }
    ensures complete { (p q : ℕ) → In positions p → In (slice_index follow.now p) q → In result q }
{
    let mut out = 0;
    for p in Positions::of(positions) {
        out |= follow[p];
    }
    out
}

impl<'a> Sweep<'a> {
    ghost use Rattle.automaton.specs.Tracks.{Swept, Earliest};

    // Nothing is read, and there is no group.
    fn new(automaton: &'a Automaton, rows: &'a [u64]) -> Sweep<'a>
        requires { length rows.now ≤ 160 }
        ensures begun { (result.automaton.now ≡ automaton.now) × (result.rows.now ≡ rows.now) × (result.read ≡ 0) }
        ensures swept { Swept result }
    {
        Sweep {
            automaton,
            rows,
            read: 0,
            active: Active {
                count: 0,
                starts: [0; MOST_SYMBOLS],
                sets: [0; MOST_SYMBOLS],
            },
        }
    }

    // Reads the next symbol.
    fn advance(&mut self)
        requires more { self.old.read < length self.old.rows.now }
        requires swept { Swept self.old }
        ensures next { (self.new.automaton ≡ self.old.automaton) × (self.new.rows ≡ self.old.rows) × (self.new.read ≡ self.old.read + 1) }
        ensures swept { Swept self.new }
    {
        let row = self.rows[self.read];
        let follow = &self.automaton.follow;
        let groups = &mut self.active;
        let mut taken = 0;
        let mut live = 0;
        // By index, since the groups that stay are written over those that are read.
        for k in 0..groups.count {
            let start = groups.starts[k];
            let next = onward(follow, groups.sets[k]) & row & !taken;
            if next != 0 {
                taken |= next;
                groups.starts[live] = start;
                groups.sets[live] = next;
                live += 1;
            }
        }
        let fresh = self.automaton.first & row & !taken;
        if fresh != 0 {
            groups.starts[live] = self.read as u8;
            groups.sets[live] = fresh;
            live += 1;
        }
        groups.count = live;
        self.read += 1;
    }

    // The least start of a stretch that ends after the last symbol that was read, and reads.
    #[inline(always)]
    fn earliest(&self) -> Option<u8>
        requires { Swept self.now }
        ensures { Earliest self.now.automaton.now self.now.rows.now self.now.read result }
    {
        let groups = &self.active;
        let last = self.automaton.last;
        let k = groups.sets[..groups.count]
            .iter()
            .position(|set| *set & last != 0)?;
        Some(groups.starts[k])
    }
}

// Each symbol's place, and the least start of a stretch that ends after the symbol and reads. The sweep gives the place, since with
// `enumerate` most cases of `bench` take longer by a sixth or more.
impl Iterator for Sweep<'_> {
    ghost use Rattle.automaton.specs.Tracks.{Swept, GivesEarliest};

    type Item = (usize, Option<u8>);

    ghost can_next = { Swept };

    ghost next_gives = { GivesEarliest };

    ghost remaining = { λ s. at_most (length s.rows.now - s.read) };

    // Always in line, and `earliest` too: with one function for both, which was called, the case `opt160` of `bench` took an eighth longer.
    #[inline(always)]
    fn next(&mut self) -> Option<(usize, Option<u8>)> {
        let i = self.read;
        if i == self.rows.len() {
            return None;
        }
        self.advance();
        Some((i, self.earliest()))
    }
}

// The stretch that was found before, or another one where there was none or that one is longer.
fn longer(best: Option<(usize, usize)>, start: usize, end: usize) -> (usize, usize)
    requires ordered { IfSome best (λ x. x.0 ≤ x.1) }
    requires after { start ≤ end }
    ensures { MatchOption best (result ≡ (start, end)) (λ x. result ≡ (if nat_lt (x.1 - x.0) (end - start) then (start, end) else x)) }
{
    match best {
        Some((l, r)) if r - l >= end - start => (l, r),
        _ => (start, end),
    }
}

impl Automaton {
    ghost use Rattle.automaton.specs.Tracks.{Earliest};

    // For each symbol the least start of a stretch that ends after it and reads.
    fn leasts(&self, rows: &[u64]) -> [Option<u8>; MOST_SYMBOLS]
        requires { length rows.now ≤ 160 }
        ensures { (i : ℕ) → i < length rows.now → Earliest self.now rows.now (i + 1) (slice_index_or result i None) }
    {
        let mut out = [None; MOST_SYMBOLS];
        for (i, least) in Sweep::new(self, rows) {
            out[i] = least;
        }
        out
    }

    /// The longest stretch that reads, as its start and its end, and the leftmost of several; `None` where no stretch reads.
    pub fn longest(&self, rows: &Rows) -> Option<(usize, usize)>
        ensures { MatchOption result (NoneReads (Reads self.now (rows_of rows.now))) (λ x. Longest (Reads self.now (rows_of rows.now)) x) }
    {
        let line = rows.as_slice();
        let mut best = self.nullable.then_some((0, 0));
        for (i, least) in Sweep::new(self, line) {
            if let Some(start) = least {
                best = Some(longer(best, start as usize, i + 1));
            }
        }
        best
    }

    /// Writes 1 for each symbol that some stretch that reads covers, and 0 for each other, and says how many are covered. Where the
    /// buffer is shorter than the line it says `None`, and writes nothing.
    pub fn mark(&self, rows: &Rows, buffer: &mut [u8]) -> Option<usize>
        ensures { MatchOption result ((length buffer.old < length (rows_of rows.now)) × (buffer.new ≡ buffer.old)) (λ count. Marks (Reads self.now (rows_of rows.now)) (length (rows_of rows.now)) buffer.old buffer.new count) }
    {
        let line = rows.as_slice();
        if buffer.len() < line.len() {
            return None;
        }
        let leasts = self.leasts(line);
        let mut low = line.len();
        let mut count = 0;
        // By index, which the test compares; and after `zip` or `rev` of `iter_mut` a proof is told nothing of what was written.
        for i in (0..line.len()).rev() {
            if let Some(start) = leasts[i] {
                low = low.min(start as usize);
            }
            if low <= i {
                buffer[i] = 1;
                count += 1;
            } else {
                buffer[i] = 0;
            }
        }
        Some(count)
    }
}
