//! Every list of calls on a shelf, from its making on.
#![tactic(auto)]

ghost use Rattle.std.specs.Prelude.{◌≡◌, ℕ, List};
ghost use Rattle.ranking.specs.OneOfTwo.{start_there, stepped_there, compared_there};
ghost use Rattle.shelf.specs.Histories.{InEveryHistory};
ghost use Rattle.histories.specs.Runs.{act, marking_act, splitting_act, MarkingOnly, SplittingOnly, Right, RunRight};

use alphabet::{Alphabet, Notation};
use either::Either;
use ranking::Ranking;
use sheet::Sheet;
use shelf::Shelf;
use shelf::refusal::Refusal;

#[cfg(test)]
mod tests;

/// A call on a shelf, with its arguments and the buffers that it lends. `R` is the ranking of the splittings, and `M` its measure.
#[derive(Drop)]
pub enum Call<'a, S, R, M> {
    File { place: usize, bytes: &'a [u8] },
    Withdraw { place: usize },
    Longest { place: usize, line: &'a [S] },
    Mark(Marking<'a, S>),
    Split(Splitting<'a, S, R, M>),
}

/// The arguments of a marking, and the buffer for its marks.
// A struct, as for a splitting: no proof covers generic code that lends on a `&mut` which is a field of a variant.
#[derive(Drop)]
pub struct Marking<'a, S> {
    pub place: usize,
    pub line: &'a [S],
    pub marks: &'a mut [u8],
}

/// The arguments of a splitting, and the buffers for its trail, its parts and its work.
#[derive(Drop)]
pub struct Splitting<'a, S, R, M> {
    pub place: usize,
    pub line: &'a [S],
    pub left: usize,
    pub right: usize,
    pub ranking: &'a R,
    pub trail: &'a mut [u8],
    pub sheet: &'a mut Sheet,
    pub work: &'a mut [M],
}

/// What a call answers.
#[derive(Clone, Copy, PartialEq, Eq, Debug)]
pub enum Answer {
    Filed(Result<(usize, usize), Refusal>),
    Withdrawn(Result<(), Refusal>),
    Longest(Result<(usize, usize), Refusal>),
    Marked(Result<usize, Refusal>),
    Split(Result<(), Refusal>),
}

// Makes a marking.
fn mark<N: Notation>(shelf: &Shelf<N>, call: &mut Marking<'_, N::Symbol>) -> Result<usize, Refusal>
    ensures { InEveryHistory N.Alphabet.meaning N.Notation.reading shelf.now shelf.now (marking_act call.old) (λ n register. MarkingOnly (N.Alphabet.meaning n) register call.old call.new result) }
{
    // Lent on first: no proof covers that within the call, where the line stands at the same lifetime.
    let marks = &mut *call.marks;
    shelf.mark(call.place, call.line, marks)
}

// Makes a splitting.
fn split<N: Notation, R: Ranking>(
    shelf: &Shelf<N>,
    call: &mut Splitting<'_, N::Symbol, R, R::Measure>,
) -> Result<(), Refusal>
    ensures { InEveryHistory N.Alphabet.meaning N.Notation.reading shelf.now shelf.now (splitting_act call.old) (λ n register. SplittingOnly R.Ranking.start R.Ranking.stepped R.Ranking.compared (N.Alphabet.meaning n) register call.old call.new result) }
{
    let trail = &mut *call.trail;
    let sheet = &mut *call.sheet;
    let work = &mut *call.work;
    shelf.split(
        call.place,
        call.line,
        call.left,
        call.right,
        call.ranking,
        trail,
        sheet,
        work,
    )
}

// Makes one call.
fn make<N: Notation, R: Ranking>(
    shelf: &mut Shelf<N>,
    call: &mut Call<'_, N::Symbol, R, R::Measure>,
) -> Answer
    ensures { InEveryHistory N.Alphabet.meaning N.Notation.reading shelf.old shelf.new (act call.old) (λ n register. Right R.Ranking.start R.Ranking.stepped R.Ranking.compared (N.Alphabet.meaning n) (N.Notation.reading n) register call.old call.new result) }
{
    match call {
        Call::File { place, bytes } => Answer::Filed(shelf.file(*place, *bytes)),
        Call::Withdraw { place } => Answer::Withdrawn(shelf.withdraw(*place)),
        Call::Longest { place, line } => Answer::Longest(shelf.longest(*place, *line)),
        Call::Mark(call) => Answer::Marked(mark(shelf, call)),
        Call::Split(call) => Answer::Split(split(shelf, call)),
    }
}

/// Makes a shelf and then the calls on it, one after another, with an answer to each. Where there are fewer answers than calls it makes
/// none of them.
pub fn run<N: Notation, R: Ranking>(
    notation: N,
    calls: &mut [Call<'_, N::Symbol, R, R::Measure>],
    answers: &mut [Answer],
) -> (Shelf<N>, Result<(), Refusal>)
    ensures { RunRight R.Ranking.start R.Ranking.stepped R.Ranking.compared N.Alphabet.meaning N.Notation.reading notation calls.old calls.new answers.old answers.new result.0 result.1 }
{
    let mut shelf = Shelf::new(notation);
    if answers.len() < calls.len() {
        return (shelf, Err(Refusal::BufferTooShort));
    }
    for (i, call) in calls.iter_mut().enumerate() {
        answers[i] = make(&mut shelf, call);
    }
    (shelf, Ok(()))
}

/// Makes a shelf and then calls on it, as `run` does. The splittings of the list may go by two rankings: each answers by the one that it
/// names, as if it were alone.
pub fn run_mixed<N: Notation, Q: Ranking, R: Ranking>(
    notation: N,
    calls: &mut [Call<'_, N::Symbol, Either<Q, R>, Either<Q::Measure, R::Measure>>],
    answers: &mut [Answer],
) -> (Shelf<N>, Result<(), Refusal>)
    ensures { RunRight (start_there Q.Ranking.start R.Ranking.start) (stepped_there Q.Ranking.stepped R.Ranking.stepped) (compared_there Q.Ranking.compared R.Ranking.compared) N.Alphabet.meaning N.Notation.reading notation calls.old calls.new answers.old answers.new result.0 result.1 }
{
    run(notation, calls, answers)
}
