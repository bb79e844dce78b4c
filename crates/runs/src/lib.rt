// Translated from boreal's boreal/src/matcher/literals.rs (MIT OR Apache-2.0), commit 7010b5e967; see NOTICE.
// The words of the runs of token entries, and of their parts.
#![tactic(auto)]

ghost use Rattle.std.specs.Prelude.{◌≡◌, cond, eqb, ◌≤◌, length};
ghost use Rattle.def_picking.specs.Runs.{closes};
ghost use Rattle.entries.specs.Walks.{meant};
ghost use Rattle.runs.specs.Whole.{byte_end, part_end, run_end};

use entries::{ENTRY, Token, Tokens};

// The kind of the entries of bytes: a number, here and below, since a part is told by the first word at a place of the lent pool.
pub const BYTE: u32 = 0;

// The words of the bytes at the front.
pub fn byte_words(ws: &[u32]) -> usize
    ensures { (result ≡ byte_end ws.now) × (result ≤ length ws.now) }
{
    let (entries, _) = ws.as_chunks::<ENTRY>();
    ENTRY * entries.iter().take_while(|e| e[0] == BYTE).count()
}

// The words of the part at the front: successive bytes, or one token.
pub fn part_words(ws: &[u32]) -> usize
    requires { 4 ≤ length ws.now }
    ensures { result ≡ part_end ws.now }
{
    if ws[0] == BYTE {
        byte_words(ws)
    } else {
        entries::width_of(ws)
    }
}

// Where the literal part before `e` begins, if a part of that kind begins at `at`.
pub fn literal_start(kind: u32, at: usize, e: usize) -> usize
    ensures { result ≡ cond (eqb kind 0) at e }
{
    if kind == BYTE { at } else { e }
}

// `??` and jumps close a run.
fn closes(token: Token) -> bool
    ensures { result ≡ closes (meant token.entry) }
{
    match token {
        Token::One(entry) => !entry.is_plain(),
        Token::Alternatives(_) => false,
    }
}

// The words before the first token that closes a run.
pub fn run_words(ws: &[u32]) -> usize
    ensures { (result ≡ run_end ws.now) × (result ≤ length ws.now) }
{
    let mut tokens = Tokens { words: ws };
    let mut left = ws.len();
    while let Some(token) = tokens.next() {
        if closes(token) {
            break;
        }
        left = tokens.words.len();
    }
    ws.len() - left
}
