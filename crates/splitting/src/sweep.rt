// One sweep over the symbols of a stretch. For each position that some front of a trail has reached, the sweep keeps the measure of
// the best front that ends there, and the position that this front had at the symbol before.
ghost use Rattle.std.specs.Prelude.{◌≡◌, ℕ, ◌+◌, ◌<◌, ◌≤◌, map, reverse, length, bit_and, bit_or, MatchOption, slice_index};
ghost use Rattle.std.specs.Ordering.{is_gt};
ghost use Rattle.automaton.specs.Bit.{In};
ghost use Rattle.ranking.specs.Laws.{Near};
ghost use Rattle.splitting.specs.Choice.{Pick};
ghost use Rattle.splitting.specs.Steps.{measure_of, Offered, LowestBefore, Preceded, Stepped, Low, back_from, rank_back};

use automaton::{Automaton, MOST_SYMBOLS, POSITIONS, Positions};
use ranking::Ranking;

// The positions that are reached at a symbol, and for each the position at the symbol before.
#[derive(Clone, Copy)]
pub(crate) struct Reached {
    pub(crate) positions: u64,
    pub(crate) previous: [u8; POSITIONS],
}

// The best fronts of so many symbols, one for each position in which a front ends.
#[derive(Drop)]
pub(crate) struct Fronts<'a, R: Ranking> {
    ranking: &'a R,
    tags: &'a [u8; POSITIONS],
    symbols: usize,
    // Row i has for each position at the symbol i the one at the symbol before.
    back: &'a [[u8; POSITIONS]; MOST_SYMBOLS],
    // The positions in which a front ends, and the measure of the best front that ends in each.
    live: u64,
    measures: &'a [R::Measure],
    ghost short: { symbols ≤ 160 },
    ghost low: { (q : ℕ) → In live q → q < 64 },
    // A slice and no array of 64: `as_chunks_mut` and `split_first_chunk_mut` ask how many bytes 64 measures take, and of a ranking's
    // measure that is not known.
    ghost room: { 64 ≤ length measures.now },
    ghost sets: { (q : ℕ) → slice_index tags.now q < 256 },
    ghost measured: { (q : ℕ) → In live q → measure_of (R.start ranking.now) measures.now q ≡ rank_back (R.start ranking.now) (R.stepped ranking.now) tags.now (back_from back.now symbols q) },
}

impl<'a, R: Ranking> Fronts<'a, R> {
    pub(crate) fn new(
        ranking: &'a R,
        tags: &'a [u8; POSITIONS],
        symbols: usize,
        back: &'a [[u8; POSITIONS]; MOST_SYMBOLS],
        live: u64,
        measures: &'a [R::Measure],
    ) -> Self
        requires room { (symbols ≤ 160) × (64 ≤ length measures.now) }
        requires low { (q : ℕ) → In live q → q < 64 }
        requires sets { (q : ℕ) → slice_index tags.now q < 256 }
        requires measured { (q : ℕ) → In live q → measure_of (R.start ranking.now) measures.now q ≡ rank_back (R.start ranking.now) (R.stepped ranking.now) tags.now (back_from back.now symbols q) }
        ensures lent { (result.ranking.now ≡ ranking.now) × (result.tags.now ≡ tags.now) × (result.measures.now ≡ measures.now) }
        ensures reached { (result.symbols ≡ symbols) × (result.live ≡ live) }
    {
        Fronts {
            ranking,
            tags,
            symbols,
            back,
            live,
            measures,
        }
    }

    // The measure of the front that ends in p.
    fn measure(&self, p: usize) -> &R::Measure
        requires { In self.now.live p }
        ensures value { result.now ≡ measure_of (R.start self.now.ranking.now) self.now.measures.now p }
        ensures near { Near (R.start self.now.ranking.now) (R.stepped self.now.ranking.now) self.now.symbols result.now }
    {
        &self.measures[p]
    }

    // Whether the front that ends in p ranks higher than the one that ends in r.
    fn is_higher(&self, p: usize, r: usize) -> bool
        requires { In self.now.live p × In self.now.live r }
        ensures { result ≡ is_gt (R.compared self.now.ranking.now (measure_of (R.start self.now.ranking.now) self.now.measures.now p) (measure_of (R.start self.now.ranking.now) self.now.measures.now r)) }
    {
        self.ranking
            .compare(self.measure(p), self.measure(r))
            .is_gt()
    }

    // Makes p the position before each of a set that is not reached yet, or whose position before has a lower measure.
    fn offer(&self, p: usize, onto: u64, reached: u64, previous: &mut [u8; POSITIONS])
        requires live_p { In self.now.live p }
        requires live_reached { (q : ℕ) → In reached q → In self.now.live (slice_index previous.old q) }
        ensures { Offered (R.compared self.now.ranking.now) (measure_of (R.start self.now.ranking.now) self.now.measures.now) p onto reached previous.old previous.new }
    {
        for q in Positions::of(onto) {
            if (reached >> q) % 2 == 0 || self.is_higher(p, previous[q] as usize) {
                previous[q] = p as u8;
            }
        }
    }

    // Offers p as `offer` does, where no measure of those that stand before a position that is reached is lower than that of `lowest`,
    // and answers the one that is so afterwards. A position that ranks no higher than the lowest takes the place of none, so it is not
    // compared with each.
    fn offer_next(
        &self,
        p: usize,
        onto: u64,
        reached: u64,
        lowest: usize,
        previous: &mut [u8; POSITIONS],
    ) -> usize
        requires live_p { In self.now.live p }
        requires live_reached { (q : ℕ) → In reached q → In self.now.live (slice_index previous.old q) }
        requires lowest { (reached ≡ 0 → ⊥) → LowestBefore (R.compared self.now.ranking.now) (measure_of (R.start self.now.ranking.now) self.now.measures.now) self.now.live reached previous.old lowest }
        ensures offered { Offered (R.compared self.now.ranking.now) (measure_of (R.start self.now.ranking.now) self.now.measures.now) p onto reached previous.old previous.new }
        ensures lowest { LowestBefore (R.compared self.now.ranking.now) (measure_of (R.start self.now.ranking.now) self.now.measures.now) self.now.live (bit_or reached onto) previous.new result }
    {
        if reached != 0 && self.is_higher(p, lowest) {
            self.offer(p, onto, reached, previous);
            return lowest;
        }
        self.offer(p, onto & !reached, reached, previous);
        p
    }

    // The positions of a row that may follow a live one, and for each the live one before it whose measure is highest, the smallest
    // among equals.
    fn follow_on(&self, automaton: &Automaton, row: u64) -> Reached
        ensures { Preceded (R.compared self.now.ranking.now) (measure_of (R.start self.now.ranking.now) self.now.measures.now) automaton.now.follow self.now.live row result.positions result.previous }
    {
        let mut positions = 0;
        let mut previous = [0; POSITIONS];
        let mut lowest = 0;
        for p in Positions::of(self.live) {
            let onto = automaton.follow[p] & row;
            lowest = self.offer_next(p, onto, positions, lowest, &mut previous);
            positions |= onto;
        }
        Reached {
            positions,
            previous,
        }
    }

    // Sets the measure of each position that is reached: that of the position before it, with one step more.
    fn set_measures(&self, reached: &Reached, after: &mut [R::Measure])
        requires room { (self.now.symbols < 160) × (64 ≤ length after.old) }
        requires live { (q : ℕ) → In reached.now.positions q → In self.now.live (slice_index reached.now.previous q) }
        ensures { Stepped (R.start self.now.ranking.now) (R.stepped self.now.ranking.now) self.now.tags.now reached.now.positions reached.now.previous self.now.measures.now after.new }
    {
        for q in Positions::of(reached.positions) {
            let p = reached.previous[q] as usize;
            after[q] = self.ranking.step(*self.measure(p), self.tags[q]);
        }
    }

    // Sets the measures of the positions at which a trail begins.
    fn begin(&self, begun: u64, after: &mut [R::Measure])
        requires { 64 ≤ length after.old }
        ensures { (q : ℕ) → In begun q → measure_of (R.start self.now.ranking.now) after.new q ≡ R.stepped self.now.ranking.now (R.start self.now.ranking.now) (slice_index self.now.tags.now q) }
    {
        for q in Positions::of(begun) {
            after[q] = self.ranking.step(self.ranking.start(), self.tags[q]);
        }
    }

    // The positions that are reached at one symbol more, by its row, with their measures. At the first symbol a trail begins.
    pub(crate) fn advance(
        &self,
        automaton: &Automaton,
        row: u64,
        after: &mut [R::Measure],
    ) -> Reached
        requires room { (self.now.symbols < 160) × (64 ≤ length after.old) }
        ensures low { (q : ℕ) → slice_index result.previous q < 64 }
        ensures first { self.now.symbols ≡ 0 → result.positions ≡ bit_and automaton.now.first row }
        ensures begun { self.now.symbols ≡ 0 → (q : ℕ) → In result.positions q → measure_of (R.start self.now.ranking.now) after.new q ≡ R.stepped self.now.ranking.now (R.start self.now.ranking.now) (slice_index self.now.tags.now q) }
        ensures preceded { 0 < self.now.symbols → Preceded (R.compared self.now.ranking.now) (measure_of (R.start self.now.ranking.now) self.now.measures.now) automaton.now.follow self.now.live row result.positions result.previous }
        ensures stepped { 0 < self.now.symbols → Stepped (R.start self.now.ranking.now) (R.stepped self.now.ranking.now) self.now.tags.now result.positions result.previous self.now.measures.now after.new }
    {
        if self.symbols == 0 {
            let positions = automaton.first & row;
            self.begin(positions, after);
            return Reached {
                positions,
                previous: [0; POSITIONS],
            };
        }
        let reached = self.follow_on(automaton, row);
        self.set_measures(&reached, after);
        reached
    }

    // Of the live positions in a set the one whose measure is highest, the smallest among equals.
    pub(crate) fn best_in(&self, set: u64) -> Option<usize>
        ensures { MatchOption result (bit_and self.now.live set ≡ 0) (λ b. Pick (R.compared self.now.ranking.now) (measure_of (R.start self.now.ranking.now) self.now.measures.now) (In (bit_and self.now.live set)) b) }
    {
        let mut positions = Positions::of(self.live & set);
        let mut best = positions.next()?;
        for p in positions {
            if self.is_higher(p, best) {
                best = p;
            }
        }
        Some(best)
    }
}

// Writes the trail that ends in the position `last`, as the numbers of its tests.
pub(crate) fn walk_back(back: &[[u8; POSITIONS]; MOST_SYMBOLS], last: u8, trail: &mut [u8])
    requires room { (last < 64) × (length trail.old ≤ 160) }
    requires low { Low back.now }
    ensures { trail.new ≡ map (λ q. q + 1) (reverse (back_from back.now (length trail.old) last)) }
{
    let mut q = last;
    // By an index: of what is written through `iter_mut().zip(back).rev()` a proof is told nothing.
    for i in (0..trail.len()).rev() {
        trail[i] = q + 1;
        q = back[i][q as usize];
    }
}
