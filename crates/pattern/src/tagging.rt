// The tags around each test of a pattern, from its nodes.
ghost use Rattle.std.specs.Prelude.{◌≡◌, ℕ, ◌+◌, slice_index};
ghost use Rattle.pattern.specs.Expressions.{Expr};
ghost use Rattle.pattern.specs.Tags.{tag_set};
ghost use Rattle.pattern.specs.TagWalks.{Taggable, Spread};
ghost use Rattle.pattern.specs.Trees.{Stands};

use crate::node::{MOST_NODES, Node};
use automaton::POSITIONS;

// Adds to the set of each test of a node's expression the tags `around` the node, and those within it around the test.
fn spread(nodes: &[Node; MOST_NODES], k: u8, around: u8, sets: &mut [u8; POSITIONS])
    requires { Taggable nodes.now k }
    ensures { (e : Expr) → Stands nodes.now k e → Spread e around sets.old sets.new }
{
    match nodes[k as usize] {
        Node::Test(n) => sets[n as usize - 1] |= around,
        Node::Seq(a, b) => {
            spread(nodes, a, around, sets);
            spread(nodes, b, around, sets);
        }
        Node::Or(a, b) => {
            spread(nodes, a, around, sets);
            spread(nodes, b, around, sets);
        }
        Node::Star(a) => spread(nodes, a, around, sets),
        Node::Plus(a) => spread(nodes, a, around, sets),
        Node::Opt(a) => spread(nodes, a, around, sets),
        Node::Tag(t, a) => spread(nodes, a, around | 1 << (t - 1), sets),
    }
}

// For each test of a node's expression the set of the tags that it is inside.
pub(crate) fn tag_sets(nodes: &[Node; MOST_NODES], root: u8) -> [u8; POSITIONS]
    requires { Taggable nodes.now root }
    ensures { (e : Expr) → Stands nodes.now root e → (q : ℕ) → slice_index result q ≡ tag_set e (q + 1) }
{
    let mut sets = [0; POSITIONS];
    spread(nodes, root, 0, &mut sets);
    sets
}
