// The position automaton of a pattern, from its nodes.
ghost use Rattle.std.specs.Prelude.{◌≡◌, ℕ, ◌<◌, true, ◌&&◌, ◌||◌, length, bit_or};
ghost use Rattle.pattern.specs.Expressions.{Expr};
ghost use Rattle.pattern.specs.Trees.{Stands};
ghost use Rattle.pattern.specs.Gathering.{Numerable, Gathered, Linked, Joined, PositionsOf};

use crate::node::{MOST_NODES, Node};
use automaton::{Automaton, POSITIONS, Positions};

// Of an expression: the positions that may begin and end a word, and whether the empty word belongs.
#[derive(Clone, Copy)]
pub struct Edges {
    nullable: bool,
    first: u64,
    last: u64,
}

impl Edges {
    // The edges of two expressions in a row.
    fn then(self, next: Edges) -> Edges
        ensures { Joined self next result }
    {
        let first = if self.nullable { next.first } else { 0 };
        let last = if next.nullable { self.last } else { 0 };
        Edges {
            nullable: self.nullable & next.nullable,
            first: self.first | first,
            last: next.last | last,
        }
    }

    // The edges of one of two expressions.
    fn or(self, other: Edges) -> Edges
        ensures { result ≡ record { nullable = self.nullable || other.nullable; first = bit_or self.first other.first; last = bit_or self.last other.last } }
    {
        Edges {
            nullable: self.nullable | other.nullable,
            first: self.first | other.first,
            last: self.last | other.last,
        }
    }

    // The same edges, with the empty word.
    fn or_none(self) -> Edges
        ensures { result ≡ record { nullable = true; first = self.first; last = self.last } }
    {
        Edges {
            nullable: true,
            ..self
        }
    }
}

// Lets each position of one set be followed by those of another.
fn link(follow: &mut [u64; POSITIONS], from: u64, to: u64)
    ensures { Linked follow.old from to follow.new }
{
    for p in Positions::of(from) {
        follow[p] |= to;
    }
}

// The edges of a node's expression; what may follow what in it is added to `follow`.
fn gather(nodes: &[Node; MOST_NODES], k: u8, follow: &mut [u64; POSITIONS]) -> Edges
    requires { Numerable nodes.now k }
    ensures { (e : Expr) → Stands nodes.now k e → Gathered e result follow.old follow.new }
{
    match nodes[k as usize] {
        Node::Test(n) => {
            let position = 1 << (n - 1);
            Edges {
                nullable: false,
                first: position,
                last: position,
            }
        }
        Node::Seq(a, b) => {
            let left = gather(nodes, a, follow);
            let right = gather(nodes, b, follow);
            link(follow, left.last, right.first);
            left.then(right)
        }
        Node::Or(a, b) => {
            let left = gather(nodes, a, follow);
            let right = gather(nodes, b, follow);
            left.or(right)
        }
        Node::Star(a) => {
            let inner = gather(nodes, a, follow);
            link(follow, inner.last, inner.first);
            inner.or_none()
        }
        Node::Plus(a) => {
            let inner = gather(nodes, a, follow);
            link(follow, inner.last, inner.first);
            inner
        }
        Node::Opt(a) => gather(nodes, a, follow).or_none(),
        Node::Tag(_, a) => gather(nodes, a, follow),
    }
}

// The position automaton of a node's expression.
pub(crate) fn automaton(nodes: &[Node; MOST_NODES], root: u8) -> Automaton
    requires { Numerable nodes.now root }
    ensures { (e : Expr) → Stands nodes.now root e → PositionsOf e result }
{
    let mut follow = [0; POSITIONS];
    let edges = gather(nodes, root, &mut follow);
    Automaton {
        first: edges.first,
        last: edges.last,
        follow,
        nullable: edges.nullable,
    }
}
