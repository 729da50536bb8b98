//! Asks each test of a pattern of each symbol of a line, once.
#![tactic(auto)]

ghost use Rattle.std.specs.Prelude.{ℕ, ◌<◌, ◌≤◌, min, length, MatchOption, slice_index, slice_index_or};
ghost use Rattle.automaton.specs.RowList.{rows_of};
ghost use Rattle.asking.specs.RowTables.{RowOf, WithTest, RowsOf};

use alphabet::Alphabet;
use automaton::{MOST_SYMBOLS, POSITIONS, Rows};

/// The tests that admit a symbol, as a set of positions: bit k stands for the test of the code k. Of more than 64 codes the first 64
/// are asked.
pub fn row<A: Alphabet>(alphabet: &A, codes: &[u32], symbol: &A::Symbol) -> u64
    ensures { RowOf (λ k. A.Alphabet.meaning alphabet.now (slice_index codes.now k) symbol.now) (min 64 (length codes.now)) result }
{
    let asked = &codes[..codes.len().min(POSITIONS)];
    let mut admitted = 0;
    for code in asked.iter().rev() {
        admitted = admitted << 1 | u64::from(alphabet.admits(*code, symbol));
    }
    admitted
}

// Puts before the bits of each row whether a test admits its symbol.
fn ask_all<A: Alphabet>(alphabet: &A, code: u32, line: &[A::Symbol], rows: &mut [u64; MOST_SYMBOLS])
    requires { length line.now ≤ 160 }
    ensures { (i : ℕ) (s : A.Symbol) → i < length line.now → WithTest (A.Alphabet.meaning alphabet.now code (slice_index_or line.now i s)) (slice_index rows.old i) (slice_index rows.new i) }
{
    for (i, symbol) in line.iter().enumerate() {
        rows[i] = rows[i] << 1 | u64::from(alphabet.admits(code, symbol));
    }
}

/// The same for each symbol of a line; `None` where the line has more than 160 symbols.
// Test by test, and each test is asked of all symbols: symbol by symbol, as `row` asks, took twice as long.
pub fn rows<A: Alphabet>(alphabet: &A, codes: &[u32], line: &[A::Symbol]) -> Option<Rows>
    ensures { MatchOption result (160 < length line.now) (λ rows. (length line.now ≤ 160) × RowsOf (λ k s. A.Alphabet.meaning alphabet.now (slice_index codes.now k) s) (min 64 (length codes.now)) line.now (rows_of rows)) }
{
    if line.len() > MOST_SYMBOLS {
        return None;
    }
    let tests = &codes[..codes.len().min(POSITIONS)];
    let mut rows = [0; MOST_SYMBOLS];
    for test in tests.iter().rev() {
        ask_all(alphabet, *test, line, &mut rows);
    }
    Rows::of(rows, line.len())
}

#[cfg(test)]
mod tests {
    use super::*;
    use alphabet::letters::Letters;

    // The letters a and b, and every letter.
    const CODES: [u32; 3] = [353, 354, 65536];

    #[test]
    fn row_of_a_letter(rt: HostRuntime) {
        let letters = Letters::new();
        assert_eq!(rt; row(&letters, &CODES, &b'b'), 6);
        assert_eq!(rt; row(&letters, &CODES, &b'c'), 4);
        assert_eq!(rt; row(&letters, &[], &b'c'), 0);
        assert_eq!(rt; row(&letters, &[65536; 70], &b'c'), u64::MAX);
    }

    #[test]
    fn rows_of_a_line(rt: HostRuntime) {
        let letters = Letters::new();
        assert!(rt; rows(&letters, &CODES, &[b'a'; 160]).is_some());
        assert!(rt; rows(&letters, &CODES, &[b'a'; 161]).is_none());
    }
}
