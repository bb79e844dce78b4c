// Translated from boreal's boreal/src/matcher/validator/simple.rs (MIT OR Apache-2.0), commit 7010b5e967; see NOTICE.
// A node word and the node that it says: the one taken apart into the other, and made from it. Nowhere else is a word taken apart or made by
// arithmetic, so what a word's layout is stands here: the types, the sizes, and the small functions for kind and fields.
#![tactic(auto)]

ghost use Rattle.std.specs.Prelude.{◌≡◌, ◌&&◌, ◌%◌, ◌≤◌, ◌<◌, leb, ltb, length};
ghost use Rattle.def_meaning.specs.NodeWords.{word};
ghost use Rattle.def_meaning.specs.Words.{byte_size, field_size, kind_of, first_of, second_of, count_of, word_size, shape, proper_by, proper};
ghost use Rattle.nodes.specs.Nodes.{shape_said, word_said, test_word, word_of, mask_in, most_in};

use base::BRANCH_LIMIT;

// A word of a program, and a field of it.
pub type NodeWord = u64;

pub type Field = u16;

// The kinds, in the lowest part of a word, by the numbers that a caller's words have. They keep the word's type and are no enum, whose cases are told
// by bytes: of kinds that are bytes the compiler makes one table of jumps in the searches, bytes of a pattern included, and they take up to twice the time.
pub const BYTE: NodeWord = 0;

pub const MASK: NodeWord = 1;

pub const NEGATED_MASK: NodeWord = 2;

pub const JUMP: NodeWord = 3;

pub const JUMP_RANGE: NodeWord = 4;

pub const DOT: NodeWord = 5;

pub const ALTERNATION: NodeWord = 6;

pub const ALT_BRANCH: NodeWord = 7;

// How many values a kind has, and a field; where the second field begins; and how many words there are.
const KINDS: NodeWord = 256;

const FIELDS: NodeWord = 65536;

const SECOND: NodeWord = KINDS * FIELDS;

const WORDS: NodeWord = SECOND * FIELDS;

// How many values a byte has: the values and masks of a sound program are bytes.
const BYTES: Field = 256;

// The first word past those of branches that may stand in a sound program. (Here and below `as` stands where std has no From: to and from usize, and to
// narrower numbers, of which a remainder loses nothing.)
const BRANCHES: NodeWord = KINDS * (BRANCH_LIMIT as NodeWord + 1);

// What is asked of one byte. Values and masks are fields here, since every word of a kind that 01 has says a node.
#[derive(Clone, Copy, Debug, PartialEq, Eq)]
pub enum ByteTest {
    Byte(Field),
    Mask(Field, Field),
    NegatedMask(Field, Field),
    Dot,
}

// What a word says.
#[derive(Clone, Copy, Debug, PartialEq, Eq)]
pub enum Node {
    One(ByteTest),
    Jump(Field),
    JumpRange(Field, Field),
    Alternation(Field),
    AltBranch(Field),
}

pub fn kind(w: NodeWord) -> NodeWord
    ensures { result ≡ kind_of w }
{
    w % KINDS
}

pub fn first(w: NodeWord) -> Field
    ensures { result ≡ first_of w }
{
    (w / KINDS % FIELDS) as Field
}

pub fn second(w: NodeWord) -> Field
    ensures { result ≡ second_of w }
{
    (w / SECOND % FIELDS) as Field
}

// What an Alternation counts.
pub fn count(w: NodeWord) -> Field
    ensures { result ≡ count_of w }
{
    first(w)
}

// What of a number fits a field.
pub fn field(n: u32) -> Field
    ensures { result ≡ n % field_size }
{
    (NodeWord::from(n) % FIELDS) as Field
}

// What of a field fits a byte.
pub fn byte_of(a: Field) -> u8
    ensures { result ≡ a % byte_size }
{
    (a % BYTES) as u8
}

// The node that a word says: none, where its kind is one that 01 does not have.
pub fn node_of(w: NodeWord) -> Option<Node>
    ensures { shape_said result ≡ shape w }
{
    let a = first(w);
    let b = second(w);
    let node = match kind(w) {
        BYTE => Node::One(ByteTest::Byte(a)),
        MASK => Node::One(ByteTest::Mask(a, b)),
        NEGATED_MASK => Node::One(ByteTest::NegatedMask(a, b)),
        JUMP => Node::Jump(a),
        JUMP_RANGE => Node::JumpRange(a, b),
        DOT => Node::One(ByteTest::Dot),
        ALTERNATION => Node::Alternation(count(w)),
        ALT_BRANCH => Node::AltBranch(a),
        _ => return None,
    };
    Some(node)
}

// The word of a kind and two fields.
fn made(k: NodeWord, a: Field, b: Field) -> NodeWord
    requires { k < 256 }
    ensures { result ≡ word k a b }
{
    k + KINDS * NodeWord::from(a) + SECOND * NodeWord::from(b)
}

impl From<ByteTest> for NodeWord {
    ghost from_gives = { λ t w. w ≡ test_word t };

    fn from(t: ByteTest) -> Self {
        match t {
            ByteTest::Byte(v) => made(BYTE, v, 0),
            ByteTest::Mask(v, m) => made(MASK, v, m),
            ByteTest::NegatedMask(v, m) => made(NEGATED_MASK, v, m),
            ByteTest::Dot => made(DOT, 0, 0),
        }
    }
}

impl From<Node> for NodeWord {
    ghost from_gives = { λ n w. w ≡ word_of n };

    fn from(n: Node) -> Self {
        match n {
            Node::One(t) => NodeWord::from(t),
            Node::Jump(a) => made(JUMP, a, 0),
            Node::JumpRange(a, b) => made(JUMP_RANGE, a, b),
            Node::Alternation(a) => made(ALTERNATION, a, 0),
            Node::AltBranch(a) => made(ALT_BRANCH, a, 0),
        }
    }
}

// The word again that `node_of` read: of none a word of a kind that 01 does not have.
pub fn node_word(n: Option<Node>) -> NodeWord
    ensures { result ≡ word_said n }
{
    match n {
        Some(node) => node.into(),
        None => made(8, 0, 0),
    }
}

// An AltBranch's word. It counts past what a sound program has: a branch that long is refused later, by 14.
pub fn branch_word(n: usize) -> NodeWord
    requires { n ≤ 4096 }
    ensures { result ≡ word 7 n 0 }
{
    ALT_BRANCH + KINDS * (n as NodeWord)
}

// The mask under which the value of a word that tests a byte has to lie, and the most that its second field may be. A Byte has FF and 0.
fn mask_in(k: NodeWord, b: Field) -> Field
    ensures { result ≡ mask_in k b }
{
    if k == BYTE { BYTES - 1 } else { b }
}

fn most_in(k: NodeWord) -> Field
    ensures { result ≡ most_in k }
{
    if k == BYTE { 0 } else { BYTES - 1 }
}

// Whether the fields of a Byte, a Mask or a NegatedMask are proper: with a bit outside its mask a Mask would fit no byte, and its negation every one.
// The three have one test, so that no jump of the machine's depends on which of them it is, as they may stand mixed.
fn proper_test(k: NodeWord, a: Field, b: Field) -> bool
    requires { k ≤ 2 }
    ensures { result ≡ proper_by k a b }
{
    let mask = mask_in(k, b);
    b <= most_in(k) && a & mask == a
}

// Whether the fields of a word, in one number, are 1 or more, and the word is below `end`. Both ask the word itself, so that the machine has one
// comparison for them.
fn counted(w: NodeWord, end: NodeWord) -> bool
    ensures { result ≡ (leb 256 w && ltb w end) }
{
    KINDS <= w && w < end
}

// Whether the fields of a word of another kind are proper. A word is below SECOND where its second field, which has no name, is 0.
fn proper_other(w: NodeWord) -> bool
    requires { (3 ≤ kind_of w) × (w < word_size) }
    ensures { result ≡ proper_by (kind_of w) (first_of w) (second_of w) }
{
    match kind(w) {
        JUMP => counted(w, SECOND),
        JUMP_RANGE => first(w) <= second(w),
        DOT => w < KINDS,
        ALTERNATION => counted(w, SECOND),
        ALT_BRANCH => counted(w, BRANCHES),
        _ => false,
    }
}

// Whether a word may stand in a sound program, as far as it tells by itself.
pub fn proper_word(w: NodeWord) -> bool
    ensures { result ≡ proper w }
{
    if WORDS <= w {
        return false;
    }
    let k = kind(w);
    if k <= NEGATED_MASK {
        proper_test(k, first(w), second(w))
    } else {
        proper_other(w)
    }
}
