// From token entries to the words of both programs, or to refusal 12, 14 or 13.
#![tactic(auto)]

ghost use Rattle.std.specs.Prelude.{◌≡◌, ◌++◌, ◌+◌, ◌*◌, ◌≤◌, length, drop, IfOk};
ghost use Rattle.def_meaning.specs.Limits.{node_limit, node_pool};
ghost use Rattle.def_meaning.specs.Tokens.{Tokens, Jump};
ghost use Rattle.def_meaning.specs.Entries.{token_count, entries};
ghost use Rattle.def_meaning.specs.Values.{Spelled};
ghost use Rattle.def_compiling.specs.Compile.{flat_token, simple_token, simple, compile};
ghost use Rattle.emit.specs.Lists.{size_at, offsets};
ghost use Rattle.base.specs.Pools.{filled};
ghost use Rattle.compiler.specs.Made.{Fills, Makes, Puts};
ghost use Rattle.compiler.specs.Walks.{to_of, told_by, flat_entries, simple_at, Entered, Simply};

use base::{ENTRY_LIMIT, JUMP_LIMIT, NODE_LIMIT, NODE_POOL, Refusal};
use emit::add_tokens;
use nodes::NodeWord;

// How many words each program has.
#[derive(Clone, Copy, Debug, PartialEq, Eq)]
pub struct Sizes {
    pub forward: usize,
    pub reverse: usize,
}

// Whether a jump has an upper bound, within the limit; the last word of an entry says whether it has one, by 0 or 1.
#[tactic(auto, unfolding(def_compiling::specs::Compile::simple_token, crate::specs::Walks::to_of))]
fn jump_near(b: u32, c: u32) -> bool
    ensures { result ≡ simple_token (Jump 0 (to_of b c)) }
{
    c != 0 && b <= JUMP_LIMIT
}

// Whether an entry may stand inside a branch. Kinds stay numbers: entries are the words of a pool that 01 lends.
#[tactic(auto, using(crate::proofs::WalkLaws::near_flat), unfolding(crate::specs::Walks::told_by, def_compiling::specs::Compile::flat_token))]
fn flat_entry(kind: u32, a: u32, b: u32, c: u32) -> bool
    ensures { result ≡ flat_token (told_by kind a b c) }
{
    match kind {
        4 => jump_near(b, c) && b <= a,
        5 => false,
        _ => true,
    }
}

// Whether all of a bracket's entries may stand inside branches.
fn flat_entries(ws: &[u32]) -> bool
    ensures { result ≡ flat_entries ws.now }
{
    let (entries, _) = ws.as_chunks::<4>();
    entries
        .iter()
        .all(|&[kind, a, b, c]| flat_entry(kind, a, b, c))
}

// The words of the token at a place. (`as`: std has no From<u32> for usize, and below none to a narrower number; a place in a text's tokens fits u16.)
#[tactic(auto, unfolding(emit::specs::Lists::size_at))]
fn token_size(ws: &[u32], at: usize) -> usize
    requires { at + 4 ≤ length ws.now }
    ensures { result ≡ size_at ws.now at }
{
    if ws[at] == 5 {
        4 + 4 * (ws[at + 2] as usize)
    } else {
        4
    }
}

// Whether the token at a place is simple.
#[tactic(auto, using(emit::proofs::AltLaws::size_least, emit::proofs::AltLaws::size_five), unfolding(crate::specs::Walks::simple_at, crate::specs::Walks::told_by, def_compiling::specs::Compile::simple_token))]
fn simple_at(ws: &[u32], at: usize) -> bool
    requires { at + size_at ws.now at ≤ length ws.now }
    ensures { result ≡ simple_at ws.now at }
{
    match ws[at] {
        4 => jump_near(ws[at + 2], ws[at + 3]),
        5 => {
            let from = at + 4;
            let to = from + 4 * (ws[at + 2] as usize);
            flat_entries(&ws[from..to])
        }
        _ => true,
    }
}

// 12: whether the tokens are simple. The place moves on by as many words as a token says: an iterator for it would be no plainer than this `while`.
#[tactic(auto, using(emit::proofs::AltLaws::size_least, crate::proofs::WalkLaws::walk_fits))]
pub fn simple_tokens(ws: &[u32]) -> bool
    requires { Entered ws.now }
    ensures { (ts : Tokens) → ws.now ≡ entries ts → result ≡ simple ts }
{
    let mut at = 0;
    while at < ws.len() {
        if !simple_at(ws, at) {
            return false;
        }
        at += token_size(ws, at);
    }
    true
}

// Where the tokens start, and how many they are, by the same steps as above.
#[tactic(auto, using(emit::proofs::AltLaws::size_least, crate::proofs::WalkLaws::marked_fits))]
pub fn find_starts(ws: &[u32], starts: &mut [u16]) -> usize
    requires { Entered ws.now × (length ws.now ≤ 4 * length starts.old) }
    ensures { (ts : Tokens) → ws.now ≡ entries ts
        → (result ≡ token_count ts) × (starts.new ≡ offsets 0 ts ++ drop result starts.old) }
{
    let mut at = 0;
    let mut n = 0;
    while at < ws.len() {
        starts[n] = at as u16;
        n += 1;
        at += token_size(ws, at);
    }
    n
}

// Both programs of simple tokens, each at the front of its buffer; or 14, then 13. That the words are some tokens' (Entered) is asked by five
// functions and held by no type: the door hands on words that it has just read, and a type for them would be made there and taken apart here.
fn make(
    tokens: &[u32],
    first: &mut [NodeWord; ENTRY_LIMIT],
    second: &mut [NodeWord; ENTRY_LIMIT],
) -> Result<Sizes, Refusal>
    requires { Entered tokens.now × Simply tokens.now }
    ensures made { (ts : Tokens) → tokens.now ≡ entries ts → Spelled ts → Makes (compile ts) result first.new second.new }
    ensures few { IfOk result (λ s. (s.forward ≤ node_limit) × (s.reverse ≤ node_limit)) }
{
    let mut places = [0; ENTRY_LIMIT];
    let count = find_starts(tokens, &mut places);
    let starts = &places[..count];
    let forward = add_tokens(tokens, starts, false, first);
    let reverse = add_tokens(tokens, starts, true, second);
    // One value of both, without a second branch; must-fail/one_direction.edit takes the one for both.
    let long = forward.long | reverse.long;
    if long {
        return Err(Refusal::BranchTooLong);
    }
    if NODE_LIMIT < forward.count || NODE_LIMIT < reverse.count {
        return Err(Refusal::TooManyNodes);
    }
    Ok(Sizes {
        forward: forward.count,
        reverse: reverse.count,
    })
}

// A program's words at the front of its pool, and zeros in the rest of the 512.
fn fill(pool: &mut [NodeWord], words: &[NodeWord])
    requires { (length words.now ≤ node_pool) × (node_pool ≤ length pool.old) }
    ensures { pool.new ≡ filled node_pool words.now pool.old }
{
    let n = words.len();
    pool[..n].copy_from_slice(words);
    pool[n..NODE_POOL].fill(0);
}

// Both programs in their pools; or 12 before all else, then 14, then 13, and the pools stay as they were. Words are made on the stack, where all that
// entries can give fit: an entry gives a word at most. None are made of tokens that 12 refuses.
fn put_programs(
    tokens: &[u32],
    forward: &mut [NodeWord],
    reverse: &mut [NodeWord],
) -> Result<Sizes, Refusal>
    requires { Entered tokens.now × (node_pool ≤ length forward.old) × (node_pool ≤ length reverse.old) }
    ensures { (ts : Tokens) → tokens.now ≡ entries ts → Spelled ts → Puts (compile ts) result
        forward.old forward.new reverse.old reverse.new }
{
    if !simple_tokens(tokens) {
        return Err(Refusal::NotSimple);
    }
    let mut first = [0; ENTRY_LIMIT];
    let mut second = [0; ENTRY_LIMIT];
    let sizes = make(tokens, &mut first, &mut second)?;
    fill(forward, &first[..sizes.forward]);
    fill(reverse, &second[..sizes.reverse]);
    Ok(sizes)
}

// The programs of tokens, forwards and from every list read backwards. They stand at the front of the pools, with zeros behind; a refusal leaves zeros
// alone. No word of a pool is written twice, as zeros beforehand would be: of a short text, zeros are most of the work.
pub fn compile_tokens(
    tokens: &[u32],
    forward: &mut [NodeWord],
    reverse: &mut [NodeWord],
) -> Result<Sizes, Refusal>
    requires { Entered tokens.now × (node_pool ≤ length forward.old) × (node_pool ≤ length reverse.old) }
    ensures { (ts : Tokens) → tokens.now ≡ entries ts → Spelled ts → Fills (compile ts) result
        forward.old forward.new reverse.old reverse.new }
{
    let made = put_programs(tokens, forward, reverse);
    if made.is_err() {
        forward[..NODE_POOL].fill(0);
        reverse[..NODE_POOL].fill(0);
    }
    made
}
