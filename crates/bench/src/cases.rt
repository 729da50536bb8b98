// The cases: a pattern of letters each, and the line that it is asked of.

ghost use Rattle.std.specs.Prelude.{◌≤◌};

#[derive(Clone, Copy)]
pub struct Case<'a> {
    pub name: &'static str,
    pub pattern: &'a [u8],
    pub line: &'a [u8],
}

impl<'a> Case<'a> {
    fn new(name: &'static str, pattern: &'a [u8], line: &'a [u8]) -> Case<'a> {
        Case {
            name,
            pattern,
            line,
        }
    }
}

const SPEAKER: &[u8] = b"{[A-Z]+}: {.*}";

const NOTE: &[u8] = b"\\({[^)-)]*}\\)|\\[{[^]-]]*}\\]";

const AMBIGUOUS: &[u8] = b"((a|ab)(b|ba)*)(a*b)*";

const SOUNDS_4: &[u8] = b"{door}";

const SOUNDS_8: &[u8] = b"{door|bell}";

const SOUNDS_16: &[u8] = b"{door|bell|song|rain}";

const SOUNDS_32: &[u8] = b"{door|bell|song|rain|wind|horn|drum|bark}";

const SOUNDS_64: &[u8] =
    b"{door|bell|song|rain|wind|horn|drum|bark|roar|howl|hiss|buzz|ring|gong|thud|bang}";

const GREETING: &[u8] = b"hm ANNA: good evening";

const PROSE: &[u8; 160] =
    b"(door slams) COUNCILLOR HUGHES: I move that the minutes of the last sitting, as circulated, be taken as read; and that item nine stand over until the 14th. [app";

const SPEECH: &[u8; 160] =
    b"HUGHES: I move that the minutes of the last sitting, as circulated, be taken as read; and that item nine stand over until the 14th. The motion is put, and AYES:";

// The patterns and lines that are too long to write out.
#[derive(Drop)]
pub struct Texts {
    optional: [u8; 96],
    stars_4: [u8; 120],
    stars_8: [u8; 120],
    stars_16: [u8; 120],
    stars_32: [u8; 120],
    stars_52: [u8; 120],
    coins: [u8; 160],
    same: [u8; 160],
}

impl Texts {
    pub fn new() -> Texts {
        Texts {
            optional: optional(),
            stars_4: stars(4),
            stars_8: stars(8),
            stars_16: stars(16),
            stars_32: stars(32),
            stars_52: stars(52),
            coins: coins(),
            same: [b'a'; 160],
        }
    }

    pub fn cases(&self) -> [Case<'_>; 8] {
        [
            Case::new("speaker21", SPEAKER, GREETING),
            Case::new("speaker160", SPEAKER, PROSE),
            Case::new("note160", NOTE, PROSE),
            Case::new("bstar160", b"bb*", &self.coins),
            Case::new("ambig160", AMBIGUOUS, &self.coins),
            Case::new("opt160", &self.optional, &self.same),
            Case::new("stars160", &self.stars_52, PROSE),
            Case::new("untagged160", &self.stars_52[8..112], PROSE),
        ]
    }

    // One pattern each and more and more symbols, as the names say.
    pub fn longer_lines(&self) -> [Case<'_>; 10] {
        [
            Case::new("speaker/symbols=20", SPEAKER, &SPEECH[..20]),
            Case::new("speaker/symbols=40", SPEAKER, &SPEECH[..40]),
            Case::new("speaker/symbols=80", SPEAKER, &SPEECH[..80]),
            Case::new("speaker/symbols=120", SPEAKER, &SPEECH[..120]),
            Case::new("speaker/symbols=160", SPEAKER, SPEECH),
            Case::new("stars/symbols=20", &self.stars_52, &SPEECH[..20]),
            Case::new("stars/symbols=40", &self.stars_52, &SPEECH[..40]),
            Case::new("stars/symbols=80", &self.stars_52, &SPEECH[..80]),
            Case::new("stars/symbols=120", &self.stars_52, &SPEECH[..120]),
            Case::new("stars/symbols=160", &self.stars_52, SPEECH),
        ]
    }

    // 160 symbols and more and more tests, as the names say. (52 times `.*` in eight tags is as much as a pattern can have.)
    pub fn larger_patterns(&self) -> [Case<'_>; 15] {
        [
            Case::new("sounds/tests=4", SOUNDS_4, PROSE),
            Case::new("sounds/tests=8", SOUNDS_8, PROSE),
            Case::new("sounds/tests=16", SOUNDS_16, PROSE),
            Case::new("sounds/tests=32", SOUNDS_32, PROSE),
            Case::new("sounds/tests=64", SOUNDS_64, PROSE),
            Case::new("opt/tests=4", &self.optional[60..66], &self.same),
            Case::new("opt/tests=8", &self.optional[56..68], &self.same),
            Case::new("opt/tests=16", &self.optional[48..72], &self.same),
            Case::new("opt/tests=32", &self.optional[32..80], &self.same),
            Case::new("opt/tests=64", &self.optional, &self.same),
            Case::new("stars/tests=4", &self.stars_4[..24], SPEECH),
            Case::new("stars/tests=8", &self.stars_8[..32], SPEECH),
            Case::new("stars/tests=16", &self.stars_16[..48], SPEECH),
            Case::new("stars/tests=32", &self.stars_32[..80], SPEECH),
            Case::new("stars/tests=52", &self.stars_52, SPEECH),
        ]
    }
}

// 32 times `a?`, then 32 times `a`.
fn optional() -> [u8; 96] {
    let mut pattern = [b'a'; 96];
    for pair in pattern[..64].chunks_exact_mut(2) {
        pair.copy_from_slice(b"a?");
    }
    pattern
}

// So many times `.*`, inside eight tags; and behind them what is left of 120 bytes.
fn stars(tests: usize) -> [u8; 120]
    requires { tests ≤ 52 }
{
    let mut pattern = [b'{'; 120];
    let end = 8 + 2 * tests;
    for pair in pattern[8..end].chunks_exact_mut(2) {
        pair.copy_from_slice(b".*");
    }
    pattern[end..].fill(b'}');
    pattern
}

// A line of `a` and `b` in no order, about two thirds of them `b`.
fn coins() -> [u8; 160] {
    let mut line = [b'a'; 160];
    let mut state = 7u32;
    for letter in &mut line {
        state = state.wrapping_mul(1103515245).wrapping_add(12345);
        if (state >> 16) % 3 != 0 {
            *letter = b'b';
        }
    }
    line
}
