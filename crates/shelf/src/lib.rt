//! A shelf of ten places for patterns, over any notation.
#![tactic(auto)]

ghost use Rattle.std.specs.Prelude.{◌≡◌, ◌<◌, [], replicate, is_ok, if◌then◌else◌, None, Ok, Err, MatchResult, OnOk, slice_set};
ghost use Rattle.pattern.specs.Patterns.{syntax};
ghost use Rattle.pattern.specs.Tokens.{SameReading};
ghost use Rattle.shelf.specs.Places.{held_at, standing};
ghost use Rattle.shelf.specs.Filing.{filing, counts, FiledAfter, Fileable, Readable, withdrawing};
ghost use Rattle.shelf.specs.Histories.{a_filing, a_withdrawal, FilingRight, WithdrawalRight, AsLeftBy, InEveryHistory};

use alphabet::{Alphabet, Notation};
use pattern::kept::Pattern;

pub mod refusal;
mod reports;
mod splits;

use refusal::Refusal;
pub use splits::part_of_line;

/// How many places a shelf has.
pub const PLACES: usize = 10;

/// Ten places over one notation. A place is bare, or one pattern stands there.
#[derive(Drop)]
pub struct Shelf<N: Notation> {
    notation: N,
    places: [Option<Pattern>; PLACES],
}

impl<N: Notation> Shelf<N> {
    /// A shelf with nothing at any place.
    pub fn new(notation: N) -> Shelf<N>
        ensures all_bare { result.places ≡ replicate 10 None }
        ensures takes_notation { result.notation ≡ notation }
        ensures left_by_no_act { AsLeftBy N.Alphabet.meaning N.Notation.reading notation [] result }
    {
        Shelf {
            notation,
            places: [None; PLACES],
        }
    }

    // The pattern at a place.
    fn pattern_at(&self, place: usize) -> Result<&Pattern, Refusal>
        ensures pattern_or_refusal { MatchResult result (λ p. standing self.now.places place ≡ Ok (syntax p.now)) (λ f. standing self.now.places place ≡ Err f) }
        ensures one_of_ten { OnOk result (place < 10) }
    {
        let held = self.places.get(place).ok_or(Refusal::NoSuchPlace)?;
        held.as_ref().ok_or(Refusal::PlaceBare)
    }

    /// Files a pattern at a bare place, and answers how many tests and tags it has.
    pub fn file(&mut self, place: usize, bytes: &[u8]) -> Result<(usize, usize), Refusal>
        ensures counts_or_refusal { result ≡ counts (filing (N.Notation.reading self.old.notation) self.old.places place bytes.now) }
        ensures pattern_stands_there { FiledAfter (filing (N.Notation.reading self.old.notation) self.old.places place bytes.now) place self.old.places self.new.places }
        ensures exactly_where_it_may { MatchResult result (λ _. Fileable (N.Notation.reading self.old.notation) self.old.places place bytes.now) (λ _. Fileable (N.Notation.reading self.old.notation) self.old.places place bytes.now → ⊥) }
        ensures asks_only_where_it_may_file { (Readable self.old.places place bytes.now → ⊥) → self.new.notation ≡ self.old.notation }
        ensures keeps_meaning { N.Alphabet.meaning self.new.notation ≡ N.Alphabet.meaning self.old.notation }
        ensures keeps_reading { SameReading (N.Notation.reading self.new.notation) (N.Notation.reading self.old.notation) }
        ensures right_in_every_history { InEveryHistory N.Alphabet.meaning N.Notation.reading self.old self.new (a_filing place bytes.now) (λ n register. FilingRight (N.Notation.reading n) register place bytes.now result) }
    {
        match self.places.get(place) {
            None => return Err(Refusal::NoSuchPlace),
            Some(Some(_)) => return Err(Refusal::PlaceTaken),
            Some(None) => {}
        }
        let pattern = Pattern::read(&mut self.notation, bytes)?;
        let counts = (pattern.tests(), pattern.tags());
        self.places[place] = Some(pattern);
        Ok(counts)
    }

    /// Takes the pattern at a place away.
    pub fn withdraw(&mut self, place: usize) -> Result<(), Refusal>
        ensures done_or_refusal { result ≡ withdrawing self.old.places place }
        ensures only_that_place_is_bared { self.new.places ≡ (if is_ok result then slice_set self.old.places place None else self.old.places) }
        ensures nothing_stands_there { held_at self.new.places place ≡ None }
        ensures keeps_notation { self.new.notation ≡ self.old.notation }
        ensures right_in_every_history { InEveryHistory N.Alphabet.meaning N.Notation.reading self.old self.new (a_withdrawal place) (λ n register. WithdrawalRight register place result) }
    {
        self.pattern_at(place)?;
        self.places[place] = None;
        Ok(())
    }
}
