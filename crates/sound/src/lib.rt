// The soundness test of node words: any words at all are sound or not. Each function is one pass, linear in the words.
#![tactic(auto)]

ghost use Rattle.std.specs.Prelude.{◌≡◌, Bool, List, ℕ, Option, length};
ghost use Rattle.std.specs.Fn.{FnReturnsAt};
ghost use Rattle.def_meaning.specs.Words.{flat_words, sound_branches, sound_words, sound};
ghost use Rattle.nodes.specs.Nodes.{shape_said};
ghost use Rattle.sound.specs.Steps.{item_inside, branch_inside, flat_word, proper_shape, Steps};

use base::NODE_LIMIT;
use nodes::{Field, Node, NodeWord, node_of, proper_word};

// The node of a word that may stand in a sound program. A call would hand the node back through memory: 11.5 ns for a word, and not 3.9.
#[inline(always)]
fn proper_node(w: NodeWord) -> Option<Node>
    ensures { shape_said result ≡ proper_shape w }
{
    if proper_word(w) { node_of(w) } else { None }
}

// How many of the words after a word are inside it, if it is an item.
pub fn item_inside(w: NodeWord) -> Option<Field>
    ensures { result ≡ item_inside w }
{
    match proper_node(w)? {
        Node::One(_) | Node::Jump(_) | Node::JumpRange(_, _) => Some(0),
        Node::Alternation(k) => Some(k),
        Node::AltBranch(_) => None,
    }
}

// The same, if it is a branch.
pub fn branch_inside(w: NodeWord) -> Option<Field>
    ensures { result ≡ branch_inside w }
{
    match proper_node(w)? {
        Node::AltBranch(k) => Some(k),
        _ => None,
    }
}

// Whether a word may stand in a branch.
#[tactic(auto, unfolding(def_meaning::specs::Words::is_flat))]
fn flat_word(w: NodeWord) -> bool
    ensures { result ≡ flat_word w }
{
    matches!(proper_node(w), Some(Node::One(_) | Node::Jump(_)))
}

fn flat_words(words: &[NodeWord]) -> bool
    ensures { result ≡ flat_words words.now }
{
    words.iter().all(|w| flat_word(*w))
}

// Whether words are pieces, one after another, and nothing else: of a piece's first word `inside` tells how many words after it belong to it, and
// of these `part` tells whether they may.
fn pieces<I: Fn(NodeWord) -> Option<Field>, P: Fn(&[NodeWord]) -> bool>(
    words: &[NodeWord],
    inside: I,
    part: P,
) -> bool
    requires { I.IsAlwaysCallable inside × P.IsAlwaysCallable part }
    ensures { (test allows : List ℕ → Bool) (tells : ℕ → Option ℕ) → Steps test allows tells
        → ((w : ℕ) (r : Option ℕ) → I.post inside w r → r ≡ tells w)
        → ((ws : List ℕ) (r : Bool) → FnReturnsAt P.Fn part ws r → r ≡ allows ws)
        → result ≡ test words.now }
{
    let mut ws = words;
    while let Some((w, rest)) = ws.split_first() {
        let Some(n) = inside(*w) else {
            return false;
        };
        let n = usize::from(n);
        let Some(own) = rest.get(..n) else {
            return false;
        };
        if !part(own) {
            return false;
        }
        // A split_at_checked before the test would be slower in short branches: 3.2 ns for a word, and not 2.2.
        ws = &rest[n..];
    }
    true
}

// Whether words are branches, one after another, and nothing else.
fn sound_branches(words: &[NodeWord]) -> bool
    ensures { result ≡ sound_branches (length words.now) words.now }
{
    pieces(words, branch_inside, flat_words)
}

// Whether words are items, one after another, each with its branches; one that is a single word has none.
fn sound_words(words: &[NodeWord]) -> bool
    ensures { result ≡ sound_words (length words.now) words.now }
{
    pieces(words, item_inside, sound_branches)
}

// The door: whether words are a sound program.
#[tactic(auto, unfolding(def_meaning::specs::Words::sound))]
pub fn is_sound(words: &[NodeWord]) -> bool
    ensures { result ≡ sound words.now }
{
    words.len() <= NODE_LIMIT && sound_words(words)
}
