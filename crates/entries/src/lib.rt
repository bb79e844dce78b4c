// Translated from boreal's boreal/src/matcher/literals.rs (MIT OR Apache-2.0), commit 7010b5e967; see NOTICE.
// Token entries, walked from the front: where each ends, and whether all are plain.
#![tactic(auto)]

ghost use Rattle.std.specs.Prelude.{◌≡◌, ◌≤◌, length};
ghost use Rattle.std.specs.Iterator.{at_most};
ghost use Rattle.def_picking.specs.Literals.{plain_list, plain_lists};
ghost use Rattle.def_picking.specs.Runs.{plain_alternatives};
ghost use Rattle.entries.specs.Words.{branch_in, ends, lists_in, width, tokens_in};
ghost use Rattle.entries.specs.Walks.{GivesToken, GivesList};

use classes::Entry;

// The words of an entry.
pub const ENTRY: usize = 4;

// Where the words within an entry of alternatives or a list mark end. That four words are there is asked here and of two more, which are handed words from
// any place on: to hand them the four apart would be no plainer.
pub fn end_of(ws: &[u32]) -> usize
    requires { 4 ≤ length ws.now }
    ensures { (result ≡ ends ws.now) × (4 ≤ result) × (result ≤ length ws.now) }
{
    // usize has no From of a u32.
    (ENTRY + ENTRY * (ws[2] as usize)).min(ws.len())
}

// The words of the token at the front.
pub fn width_of(ws: &[u32]) -> usize
    requires { 4 ≤ length ws.now }
    ensures { result ≡ width ws.now }
{
    if ws[0] == ALTERNATIVES {
        end_of(ws)
    } else {
        ENTRY
    }
}

// The kind of the entries that begin alternatives: a number, since the words are a lent pool's.
const ALTERNATIVES: u32 = 5;

// A token: an entry that has no words within, or the words of the lists that alternatives have, each after its mark.
#[derive(Clone, Copy)]
pub enum Token<'a> {
    One(Entry),
    Alternatives(&'a [u32]),
}

// The tokens of some words, one after another. They end where fewer words are left than an entry has.
#[derive(Clone, Copy)]
pub struct Tokens<'a> {
    pub words: &'a [u32],
}

impl<'a> Iterator for Tokens<'a> {
    type Item = Token<'a>;

    ghost next_gives = { GivesToken };

    ghost remaining = { λ s. at_most (length s.words.now) };

    fn next(&mut self) -> Option<Token<'a>> {
        let ws = self.words;
        let (head, rest) = ws.split_first_chunk::<ENTRY>()?;
        if head[0] != ALTERNATIVES {
            self.words = rest;
            return Some(Token::One(Entry::from(*head)));
        }
        let e = end_of(ws);
        self.words = &ws[e..];
        Some(Token::Alternatives(&ws[ENTRY..e]))
    }
}

// The words of lists, one after another, of each what comes after its mark.
#[derive(Clone, Copy)]
pub struct Lists<'a> {
    pub words: &'a [u32],
}

impl<'a> Iterator for Lists<'a> {
    type Item = &'a [u32];

    ghost next_gives = { GivesList };

    ghost remaining = { λ s. at_most (length s.words.now) };

    fn next(&mut self) -> Option<&'a [u32]> {
        let ws = self.words;
        if ws.len() < ENTRY {
            return None;
        }
        let e = end_of(ws);
        self.words = &ws[e..];
        Some(&ws[ENTRY..e])
    }
}

fn plain_list(ws: &[u32]) -> bool
    ensures { result ≡ plain_list (branch_in ws.now) }
{
    let (entries, _) = ws.as_chunks::<ENTRY>();
    entries.iter().all(|e| Entry::from(*e).is_plain())
}

fn plain_lists(ws: &[u32]) -> bool
    ensures { result ≡ plain_lists (lists_in ws.now) }
{
    for list in (Lists { words: ws }) {
        if !plain_list(list) {
            return false;
        }
    }
    true
}

// All alternatives hold only bytes and classes.
pub fn plain_alternatives(ws: &[u32]) -> bool
    ensures { result ≡ plain_alternatives (tokens_in ws.now) }
{
    for token in (Tokens { words: ws }) {
        if let Token::Alternatives(lists) = token {
            if !plain_lists(lists) {
                return false;
            }
        }
    }
    true
}
