// Translated from boreal's boreal/src/matcher/literals.rs (MIT OR Apache-2.0), commit 7010b5e967; see NOTICE.
// How many literals token entries have, how many combinations, and how long the shortest literal is.
#![tactic(auto)]

ghost use Rattle.std.specs.Prelude.{◌≡◌, ◌+◌, ◌*◌, ◌≤◌, min, length};
ghost use Rattle.tallies.specs.Tallies.{count_top, Tallied};
ghost use Rattle.def_picking.specs.Literals.{combinations_of, combinations, combinations_in, length_of, length_in, shortest};
ghost use Rattle.def_picking.specs.Numbers.{count_of, count, count_in};
ghost use Rattle.entries.specs.Walks.{meant, words_of};
ghost use Rattle.entries.specs.Words.{branch_in, lists_in, tokens_in};

use base::LITERAL_LIMIT;
use classes::Entry;
use entries::{ENTRY, Lists, Token, Tokens};

// Counts above the limit, which combinations share with literals, are all one to the picker, so they stop right above it.
const COUNT_TOP: usize = LITERAL_LIMIT + 1;

fn times(a: usize, b: usize) -> usize
    requires { (a ≤ count_top) × (b ≤ count_top) }
    ensures { result ≡ min count_top (a * b) }
{
    COUNT_TOP.min(a * b)
}

pub fn count_list(ws: &[u32]) -> usize
    ensures { result ≡ min count_top (count (branch_in ws.now)) }
{
    let mut left = ws;
    let mut n = 1;
    // Not a `for` over chunks: to begin one takes as long as a list of one byte.
    while let Some((words, rest)) = left.split_first_chunk::<ENTRY>() {
        left = rest;
        let entry = Entry::from(*words);
        // A byte leaves the product as it is. Most entries are bytes, here and below.
        if let Entry::Byte(_) = entry {
            continue;
        }
        n = times(n, entry.count());
    }
    n
}

// How many literals, and how many combinations by 01's count, each up to that.
#[derive(Clone, Copy, Debug, PartialEq, Eq)]
pub struct Tally {
    pub literals: usize,
    pub combinations: usize,
}

fn tally_lists(ws: &[u32]) -> Tally
    ensures { Tallied result (count_in (lists_in ws.now)) (combinations_in (lists_in ws.now)) }
{
    let mut literals = 0;
    let mut combinations = 1;
    for list in (Lists { words: ws }) {
        let n = count_list(list);
        literals = COUNT_TOP.min(literals + n);
        combinations = times(combinations, n);
    }
    Tally {
        literals,
        combinations,
    }
}

// A call would hand the token over through memory.
#[inline(always)]
pub fn tally_token(token: Token) -> Tally
    ensures { Tallied result (count_of (meant token.entry)) (combinations_of (meant token.entry)) }
{
    match token {
        Token::Alternatives(lists) => tally_lists(lists),
        Token::One(entry) => {
            let n = entry.count();
            Tally {
                literals: n,
                combinations: n,
            }
        }
    }
}

pub fn tally_tokens(ws: &[u32]) -> Tally
    ensures { Tallied result (count (tokens_in ws.now)) (combinations (tokens_in ws.now)) }
{
    let mut literals = 1;
    let mut combinations = 1;
    for token in (Tokens { words: ws }) {
        if let Token::One(Entry::Byte(_)) = token {
            continue;
        }
        let t = tally_token(token);
        literals = times(literals, t.literals);
        combinations = times(combinations, t.combinations);
    }
    Tally {
        literals,
        combinations,
    }
}

// The length of the shortest list.
fn shortest_of(ws: &[u32]) -> usize
    ensures { (result ≡ shortest (lists_in ws.now)) × (result ≤ length ws.now) }
{
    let mut lists = Lists { words: ws };
    let Some(first) = lists.next() else {
        return 0;
    };
    let mut n = first.len() / ENTRY;
    for list in lists {
        n = n.min(list.len() / ENTRY);
    }
    n
}

fn length_token(token: Token) -> usize
    ensures { (result ≡ length_of (meant token.entry)) × (result + 3 ≤ words_of token.entry) }
{
    match token {
        Token::Alternatives(lists) => shortest_of(lists),
        Token::One(_) => 1,
    }
}

// The length of the shortest literal.
pub fn length_of(ws: &[u32]) -> usize
    ensures { (result ≡ length_in (tokens_in ws.now)) × (result ≤ length ws.now) }
{
    let mut n = 0;
    for token in (Tokens { words: ws }) {
        n += length_token(token);
    }
    n
}
