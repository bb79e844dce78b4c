// Translated from boreal's boreal/src/matcher/validator/simple.rs (MIT OR Apache-2.0), commit 7010b5e967; see NOTICE.
// The words of one program, made from token entries, forwards or from every list read backwards.
#![tactic(auto)]

ghost use Rattle.std.specs.Prelude.{◌≡◌, true, false, not, ◌||◌, leb, ◌++◌, ◌+◌, ◌*◌, ◌-◌, ◌≤◌, ◌<◌, Some, None, length, get_or, drop, set};
ghost use Rattle.std.proofs.Props.{props};
ghost use Rattle.def_meaning.specs.Limits.{branch_limit, token_pool};
ghost use Rattle.def_meaning.specs.Programs.{alt};
ghost use Rattle.def_meaning.specs.NodeWords.{word};
ghost use Rattle.nodes.specs.Nodes.{test_word};
ghost use Rattle.def_compiling.specs.ProgramWords.{words_for, words_of, words_in, nodes};
ghost use Rattle.emit.specs.declared.Addend.TheVariants.{Word, Gap};
ghost use Rattle.emit.specs.Items.{byte_in, entry_item, half_of, jump_item, addend_of, Behind, grown_of, put_count, put_last, put_out, place_of};
ghost use Rattle.def_compiling.specs.Compile.{short_in, short_of, short};
ghost use Rattle.emit.specs.Lists.{list_program, branches_at, FlatLists, alt_at, token_at, item_count, item_last, item_out, size_at, Stands, tokens_program, Outlined};

use base::BRANCH_LIMIT;
use nodes::{ByteTest, Field, Node, NodeWord, branch_word, field};

// What a token of one entry adds: a node's word, or a jump, which may grow the last node.
#[derive(Clone, Copy, Debug, PartialEq, Eq)]
pub enum Addend {
    Word(NodeWord),
    Gap(Field),
}

impl From<ByteTest> for Addend {
    ghost from_gives = { λ t addend. addend ≡ Word (test_word t) };

    fn from(t: ByteTest) -> Self {
        Self::Word(t.into())
    }
}

// What is written of a program: how many words, the length of the last node where that is a jump, which may grow, and whether a branch is above
// 255 nodes.
#[derive(Clone, Copy, Debug, PartialEq, Eq)]
pub struct Written {
    pub count: usize,
    pub last: Option<Field>,
    pub long: bool,
    // A jump that may grow stands before the next word.
    ghost behind: { Behind count last } by { Prim.hlevel props },
}

// The value and the mask of `?X` and `X?`; `??` has none. The values that a text can spell are below 16: the remainder spares a requirement. (Here and
// below `as` stands where std has no From: from u32 to usize, and to a narrower number, of which a remainder, or the pool's length, loses nothing.)
#[tactic(auto, unfolding(crate::specs::Items::half_of))]
fn half(a: u32, b: u32) -> Option<(Field, Field)>
    ensures { result ≡ half_of a b }
{
    let v = (a % 16) as Field;
    match b {
        0 => Some((v, 0x0F)),
        1 => Some((16 * v, 0xF0)),
        _ => None,
    }
}

#[tactic(auto, unfolding(crate::specs::Items::jump_item, crate::specs::Items::addend_of))]
fn jump_addend(a: Field, b: Field) -> Addend
    ensures { result ≡ addend_of (jump_item a b) }
{
    if a < b {
        return Addend::Word(Node::JumpRange(a, b).into());
    }
    Addend::Gap(a)
}

// The byte of an entry. Bytes that a text can spell are below 256: the remainder spares a requirement, and so do the fields of jumps below.
fn byte_in(value: u32) -> Field
    ensures { result ≡ byte_in value }
{
    (value % 256) as Field
}

// What a token of one entry adds, by its kind and its first two values. Kinds stay numbers: entries are the words of a pool that 01 lends, and any
// word may stand there. `X?` has arms of its own, where its mask is a constant of the word: one arm for both masks took eight instructions more for it.
#[tactic(auto, unfolding(crate::specs::Items::entry_item, crate::specs::Items::mask_item, crate::specs::Items::not_mask_item, crate::specs::Items::half_of, crate::specs::Items::addend_of))]
pub fn entry_addend(kind: u32, a: u32, b: u32) -> Addend
    ensures { result ≡ addend_of (entry_item kind a b) }
{
    match kind {
        0 => ByteTest::Byte(byte_in(a)).into(),
        1 => ByteTest::NegatedMask(byte_in(a), 0xFF).into(),
        2 => match half(a, b) {
            Some((value, 0xF0)) => ByteTest::Mask(value, 0xF0).into(),
            Some((value, mask)) => ByteTest::Mask(value, mask).into(),
            None => Addend::Gap(1),
        },
        3 => match half(a, b) {
            Some((value, 0xF0)) => ByteTest::NegatedMask(value, 0xF0).into(),
            Some((value, mask)) => ByteTest::NegatedMask(value, mask).into(),
            None => ByteTest::NegatedMask(0, 0).into(),
        },
        _ => jump_addend(field(a), field(b)),
    }
}

impl Written {
    fn nothing() -> Self
        ensures { (result.count ≡ 0) × (result.last ≡ None) × (result.long ≡ false) }
    {
        Self {
            count: 0,
            last: None,
            long: false,
        }
    }

    // The length of the last node with so much more, if that is a jump and the sum is within JUMP_LIMIT, which is the most that a
    // field holds: a sum above it has no field.
    fn grown(self, len: Field) -> Option<Field>
        ensures { result ≡ grown_of self.last len }
    {
        self.last?.checked_add(len)
    }

    // Adding a jump enlarges the last node where it may grow, else appends.
    fn add_jump(self, out: &mut [NodeWord], len: Field) -> Self
        requires { self.count < length out.old }
        ensures { (result.count ≡ put_count self.count self.last (Gap len)) × (result.last ≡ put_last self.last (Gap len))
            × (out.new ≡ put_out out.old self.count self.last (Gap len)) × (result.long ≡ self.long) }
    {
        if let Some(sum) = self.grown(len) {
            out[self.count - 1] = Node::Jump(sum).into();
            return Self {
                count: self.count,
                last: Some(sum),
                long: self.long,
            };
        }
        out[self.count] = Node::Jump(len).into();
        Self {
            count: self.count + 1,
            last: Some(len),
            long: self.long,
        }
    }

    // One addend more.
    #[tactic(auto, unfolding(crate::specs::Items::put_count, crate::specs::Items::put_last, crate::specs::Items::put_out))]
    fn add(self, out: &mut [NodeWord], addend: Addend) -> Self
        requires { self.count < length out.old }
        ensures { (result.count ≡ put_count self.count self.last addend) × (result.last ≡ put_last self.last addend)
            × (out.new ≡ put_out out.old self.count self.last addend) × (result.long ≡ self.long) }
    {
        match addend {
            Addend::Word(w) => {
                out[self.count] = w;
                Self {
                    count: self.count + 1,
                    last: None,
                    long: self.long,
                }
            }
            Addend::Gap(len) => self.add_jump(out, len),
        }
    }

    // The token at a place.
    #[tactic(auto, using(crate::proofs::AltLaws::size_least))]
    fn add_token(self, tokens: &[u32], at: usize, backwards: bool, out: &mut [NodeWord]) -> Self
        requires { Stands tokens.now at × (length tokens.now ≤ token_pool)
            × (4 * self.count + size_at tokens.now at ≤ 4 * length out.old) }
        ensures { (result.count ≡ item_count self.count self.last (token_at backwards tokens.now at))
            × (result.last ≡ item_last self.last (token_at backwards tokens.now at))
            × (result.long ≡ (self.long || not (short_of (token_at backwards tokens.now at))))
            × (out.new ≡ item_out out.old self.count self.last (token_at backwards tokens.now at)) }
    {
        let kind = tokens[at];
        if kind == 5 {
            let b = add_alternation(tokens, at, backwards, &mut out[self.count..]);
            return Self {
                count: self.count + b.count,
                last: None,
                long: self.long | b.long,
            };
        }
        self.add(out, entry_addend(kind, tokens[at + 1], tokens[at + 2]))
    }
}

// Which of n tokens comes k-th. Which way is a flag, since a slice's iterator and its `rev` are two types, and the lists inside go the same way.
#[tactic(auto, unfolding(crate::specs::Items::place_of))]
fn place(backwards: bool, n: usize, k: usize) -> usize
    requires { k < n }
    ensures { (result ≡ place_of backwards n k) × (result < n) }
{
    if backwards { n - 1 - k } else { k }
}

// A list of tokens of one entry each, as a branch is: its words at the front of `out`, and their number.
pub fn add_list(entries: &[u32], backwards: bool, out: &mut [NodeWord]) -> usize
    requires { length entries.now ≤ 4 * length out.old }
    ensures { (result ≡ nodes (list_program backwards entries.now))
        × (out.new ≡ words_of (list_program backwards entries.now) ++ drop result out.old) }
{
    let (chunks, _) = entries.as_chunks::<4>();
    let mut written = Written::nothing();
    for k in 0..chunks.len() {
        let [kind, a, b, _] = chunks[place(backwards, chunks.len(), k)];
        written = written.add(out, entry_addend(kind, a, b));
    }
    written.count
}

// The words of branches, and whether one of them is above 255 nodes. That is no error here: what is written is promised of such branches too.
#[derive(Clone, Copy, Debug, PartialEq, Eq)]
pub struct Branched {
    pub count: usize,
    pub long: bool,
}

// Lists behind their marks: each is a branch, with its own mark before its nodes. That the words have room in `out` is asked of both slices together,
// here and in what calls it, so no type of one of them could hold it.
pub fn add_lists(entries: &[u32], lists: usize, backwards: bool, out: &mut [NodeWord]) -> Branched
    requires { FlatLists lists entries.now × (length entries.now ≤ token_pool) × (length entries.now ≤ 4 * length out.old) }
    ensures { (result.count ≡ length (words_in (branches_at backwards lists entries.now)))
        × (result.long ≡ not (short_in (branches_at backwards lists entries.now)))
        × (out.new ≡ words_in (branches_at backwards lists entries.now) ++ drop result.count out.old) }
{
    let mut x = 0;
    let mut n = 0;
    let mut long = false;
    for _l in 0..lists {
        let from = x + 4;
        let to = from + 4 * (entries[x + 1] as usize);
        let m = add_list(&entries[from..to], backwards, &mut out[n + 1..]);
        out[n] = branch_word(m);
        long |= BRANCH_LIMIT < m;
        n = n + 1 + m;
        x = to;
    }
    Branched { count: n, long }
}

// The alternatives at a place: their Alternation, and their branches behind it.
#[tactic(auto, using(crate::proofs::AltLaws::alt_fits, crate::proofs::AltLaws::size_five, crate::proofs::AltLaws::handed_few, crate::proofs::AltLaws::handed_long))]
fn add_alternation(tokens: &[u32], at: usize, backwards: bool, out: &mut [NodeWord]) -> Branched
    requires { Stands tokens.now at × (get_or tokens.now at 0 ≡ 5) × (length tokens.now ≤ token_pool)
        × (size_at tokens.now at ≤ 4 * length out.old) }
    ensures { (result.count ≡ length (words_for (alt (alt_at backwards tokens.now at))))
        × (result.long ≡ not (short_in (alt_at backwards tokens.now at)))
        × (out.new ≡ words_for (alt (alt_at backwards tokens.now at)) ++ drop result.count out.old) }
{
    let lists = tokens[at + 1] as usize;
    let from = at + 4;
    let to = from + 4 * (tokens[at + 2] as usize);
    let b = add_lists(&tokens[from..to], lists, backwards, &mut out[1..]);
    let count = b.count;
    out[0] = Node::Alternation(count as Field).into();
    Branched {
        count: count + 1,
        long: b.long,
    }
}

// The tokens of the outer list, which start at `starts`: their words at the front of `out`, and their number.
pub fn add_tokens(tokens: &[u32], starts: &[u16], backwards: bool, out: &mut [NodeWord]) -> Branched
    requires { Outlined tokens.now starts.now × (length tokens.now ≤ token_pool) × (length tokens.now ≤ 4 * length out.old) }
    ensures { (result.count ≡ nodes (tokens_program backwards tokens.now starts.now))
        × (result.long ≡ not (short (tokens_program backwards tokens.now starts.now)))
        × (out.new ≡ words_of (tokens_program backwards tokens.now starts.now) ++ drop result.count out.old) }
{
    let count = starts.len();
    let mut written = Written::nothing();
    for k in 0..count {
        let at = usize::from(starts[place(backwards, count, k)]);
        written = written.add_token(tokens, at, backwards, out);
    }
    Branched {
        count: written.count,
        long: written.long,
    }
}
