// The reader: tokens to an expression, by recursive descent.
ghost use Rattle.std.specs.Prelude.{◌≡◌, ◌≢◌, ℕ, true, ◌+◌, ◌*◌, ◌<◌, ◌≤◌, length, take, Ok, MatchResult};
ghost use Rattle.pattern.specs.Descent.{codes_before, tags_before};
ghost use Rattle.pattern.specs.Patterns.{written};
ghost use Rattle.pattern.specs.Scanning.{scanned};

use crate::fault::Fault;
use crate::kept::Pattern;
use crate::node::{MOST_NODES, Node};
use crate::positions::automaton;
use crate::tagging::tag_sets;
use crate::token::{Kind, Token};
use automaton::POSITIONS;

// Each test has a position of the automaton.
const MOST_TESTS: u8 = POSITIONS as u8;

// `sheet` and `ranking` have the same number, and stand apart from patterns.
const MOST_TAGS: u8 = 8;

const MOST_OPEN: u8 = 8;

// A node, and whether what it stands for is or contains a tag.
#[derive(Clone, Copy)]
pub struct Part {
    root: u8,
    tagged: bool,
}

// A place among the tokens of a pattern of `end` bytes; the nodes and the tests that were made of the tokens before it,
// and how many tags were opened there. Nodes and tests stand in arrays with their counts beside them, since the
// pattern, which is `Copy`, takes the whole arrays over.
#[derive(Drop)]
pub struct Reader<'a> {
    tokens: &'a [Token],
    end: usize,
    pos: usize,
    nodes: [Node; MOST_NODES],
    used: u8,
    codes: [u32; POSITIONS],
    tests: u8,
    tags: u8,
    ghost short: { length tokens.now ≤ 120 },
    ghost within: { pos ≤ length tokens.now },
    ghost room: { used ≤ 2 * pos },
    ghost few: { tests ≤ 64 },
    ghost tests_are: { tests ≡ length (codes_before tokens.now pos) },
    ghost codes_are: { take tests codes ≡ codes_before tokens.now pos },
    ghost tags_are: { tags ≡ tags_before tokens.now pos },
}

impl Reader<'_> {
    ghost use Rattle.pattern.specs.Expressions.{Expr};
    ghost use Rattle.pattern.specs.Descent.{at, tags, is_plain, Want, Parses, bad};
    ghost use Rattle.pattern.specs.Nodes.{source_of, kind_here, offset_here, Past, Took, Added, Came, Means, Repeated};

    // The token at the place; past the last one, the end.
    #[tactic(auto, using(crate::proofs::Steps::look_in, crate::proofs::Steps::look_past))]
    fn peek(&self) -> Token
        ensures { result ≡ at (source_of self.now) self.now.pos }
    {
        let end = Token {
            kind: Kind::End,
            offset: self.end,
        };
        self.tokens.get(self.pos).copied().unwrap_or(end)
    }

    // One token on, over a sign that opens no tag.
    #[tactic(auto, using(crate::proofs::Steps::plain, crate::proofs::Steps::over))]
    fn advance(&mut self)
        requires { is_plain (kind_here self.old) ≡ true }
        ensures { Past self.old self.new }
    {
        self.pos += 1;
    }

    // One token on, if it is of a kind.
    fn take(&mut self, kind: Kind) -> bool
        requires { is_plain kind ≡ true }
        ensures { Took kind self.old result self.new }
    {
        let found = self.peek().kind == kind;
        if found {
            self.advance();
        }
        found
    }

    // Over the bracket that closes a group.
    fn close(&mut self, kind: Kind) -> Result<(), Fault>
        requires { is_plain kind ≡ true }
        ensures { MatchResult result (λ _. (kind_here self.old ≡ kind) × Past self.old self.new) (λ f. (kind_here self.old ≢ kind) × (f ≡ Fault.LooseBracket (offset_here self.old))) }
    {
        if !self.take(kind) {
            return Err(Fault::LooseBracket(self.peek().offset));
        }
        Ok(())
    }

    // Over the bracket that opens a tag, which gets the next number.
    #[tactic(auto, using(crate::proofs::Steps::over))]
    fn open_tag(&mut self) -> Result<u8, Fault>
        requires { kind_here self.old ≡ Kind.OpenTag }
        ensures { MatchResult result (λ n. (self.old.tags < 8) × (n ≡ self.old.tags + 1) × Past self.old self.new) (λ f. (8 ≤ self.old.tags) × (f ≡ Fault.TooManyTags (offset_here self.old))) }
    {
        if self.tags >= MOST_TAGS {
            return Err(Fault::TooManyTags(self.peek().offset));
        }
        self.pos += 1;
        self.tags += 1;
        Ok(self.tags)
    }

    // One node more, and its number.
    fn add(&mut self, node: Node) -> u8
        requires { self.old.used < 2 * self.old.pos }
        ensures { Added node self.old result self.new }
    {
        let at = self.used;
        self.nodes[at as usize] = node;
        self.used = at + 1;
        at
    }

    // Over a test, which gets the next number.
    fn test(&mut self, code: u32) -> Result<Part, Fault>
        requires { kind_here self.old ≡ Kind.Test (Ok code) }
        ensures { (d : ℕ) → Came (Want.unit d) self.old result self.new }
    {
        let tests = self.tests;
        if tests >= MOST_TESTS {
            return Err(Fault::TooManyTests(self.peek().offset));
        }
        self.pos += 1;
        self.codes[tests as usize] = code;
        self.tests = tests + 1;
        Ok(Part {
            root: self.add(Node::Test(tests + 1)),
            tagged: false,
        })
    }

    // The `*`, `+` and `?` after a unit. Always inline, since handing a part out byte by byte takes longer than to look for its sign.
    #[inline(always)]
    fn repeats(&mut self, unit: Part) -> Result<Part, Fault>
        requires { unit.root < self.old.used }
        ensures { MatchResult result (λ k. Repeated self.old unit k self.new) (λ f. (e : Expr) → Means self.old.nodes unit e → Parses (source_of self.old) (Want.repeats e) self.old.pos (bad f)) }
    {
        let mut part = unit;
        'repeats: loop {
            let token = self.peek();
            let node = match token.kind {
                Kind::Opt => Node::Opt(part.root),
                Kind::Star | Kind::Plus if part.tagged => {
                    return Err(Fault::RepeatedTag(token.offset));
                }
                Kind::Star => Node::Star(part.root),
                Kind::Plus => Node::Plus(part.root),
                _ => return Ok(part),
            };
            self.advance();
            part.root = self.add(node);
        }
    }

    // Branches with `|` between them.
    #[cycle(branch_group_item)]
    fn group(&mut self, depth: u8) -> Result<Part, Fault>
        ensures { Came (Want.group depth) self.old result self.new }
    {
        let mut left = self.branch(depth)?;
        while self.take(Kind::Or) {
            let right = self.branch(depth)?;
            left = Part {
                root: self.add(Node::Or(left.root, right.root)),
                tagged: left.tagged | right.tagged,
            };
        }
        Ok(left)
    }

    // Items in a row.
    #[cycle(branch_group_item)]
    fn branch(&mut self, depth: u8) -> Result<Part, Fault>
        ensures { Came (Want.branch depth) self.old result self.new }
    {
        let mut left = self.item(depth)?;
        while self.peek().kind.is_unit() {
            let right = self.item(depth)?;
            left = Part {
                root: self.add(Node::Seq(left.root, right.root)),
                tagged: left.tagged | right.tagged,
            };
        }
        Ok(left)
    }

    // A test, a group or a tag, and what repeats it.
    #[cycle(branch_group_item)]
    fn item(&mut self, depth: u8) -> Result<Part, Fault>
        ensures { Came (Want.item depth) self.old result self.new }
    {
        let token = self.peek();
        let unit = match token.kind {
            Kind::Test(read) => self.test(read?)?,
            Kind::Open | Kind::OpenTag if depth >= MOST_OPEN => {
                return Err(Fault::TooDeep(token.offset));
            }
            Kind::Open => {
                self.advance();
                let inner = self.group(depth + 1)?;
                self.close(Kind::Close)?;
                inner
            }
            Kind::OpenTag => {
                let tag = self.open_tag()?;
                let inner = self.group(depth + 1)?;
                self.close(Kind::CloseTag)?;
                Part {
                    root: self.add(Node::Tag(tag, inner.root)),
                    tagged: true,
                }
            }
            _ => return Err(Fault::MissingUnit(token.offset)),
        };
        self.repeats(unit)
    }
}

// The pattern that the tokens make, or the first fault.
pub(crate) fn parse(tokens: &[Token], end: usize) -> Result<Pattern, Fault>
    requires { length tokens.now ≤ 120 }
    ensures { written result ≡ scanned end tokens.now }
{
    let mut reader = Reader {
        tokens,
        end,
        pos: 0,
        nodes: [Node::Test(0); MOST_NODES],
        used: 0,
        codes: [0; POSITIONS],
        tests: 0,
        tags: 0,
    };
    let whole = reader.group(0)?;
    let behind = reader.peek();
    let Kind::End = behind.kind else {
        return Err(Fault::LooseBracket(behind.offset));
    };
    let machine = automaton(&reader.nodes, whole.root);
    let sets = tag_sets(&reader.nodes, whole.root);
    Ok(Pattern {
        nodes: reader.nodes,
        root: whole.root,
        codes: reader.codes,
        tests: reader.tests,
        tags: reader.tags,
        machine,
        sets,
    })
}
