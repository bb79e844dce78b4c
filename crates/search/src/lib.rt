// Translated from boreal's boreal/src/matcher/validator/simple.rs (MIT OR Apache-2.0), commit 7010b5e967; see NOTICE.
// The search of both checks: the first choice that fits, over the way in which a window is read. The original has it twice.
// Nodes of fixed length are a loop; only jump lengths and tails after a branch recurse. 01 names the let-else that takes the next node, so the
// loops over nodes and over branches are a `loop` (docs/RULES.md, form-let-else). Sound is asked by three functions and held by no type: a search hands on
// parts of its words, and a part would be made a value of such a type again at every hand.
#![tactic(auto)]

ghost use Rattle.std.specs.Prelude.{◌≡◌, true, ◌⊎◌, ◌∷◌, ◌≤◌, length, drop, MatchOption};
ghost use Rattle.def_meaning.specs.Choices.{Order};
ghost use Rattle.def_meaning.specs.Programs.{range, alt, ◌▹◌};
ghost use Rattle.def_meaning.specs.Rows.{run};
ghost use Rattle.def_meaning.specs.Words.{kind_of, shape, proper, prog, branches_of, Sound, SoundBranches, flat_words};
ghost use Rattle.steps.specs.Steps.{answer, seen, length_at, is_test, Leaves};

use nodes::{Field, JUMP, JUMP_RANGE, NodeWord, count, first, kind, second};
use steps::{tests_byte, word_passes};

// From which end a window is read, and which lengths of a range come first.
pub trait Way {
    ghost order: { Order };

    // The byte that is read next, and the window without it.
    fn next(window: &[u8]) -> Option<(&u8, &[u8])>
        ensures { MatchOption result (length window.now ≡ 0) (λ p. seen order window.now ≡ p.0.now ∷ seen order p.1.now) };

    // The window without the n bytes that are read next.
    fn without(window: &[u8], n: usize) -> &[u8]
        requires { n ≤ length window.now }
        ensures { seen order result.now ≡ drop n (seen order window.now) };

    // Of the lengths from `least` to `most` the one that is tried where the shortest first would try n.
    fn length(least: usize, most: usize, n: usize) -> usize
        requires { (least ≤ n) × (n ≤ most) }
        ensures { result ≡ length_at order least most n };
}

// What a word that tests a byte leaves of the window.
fn test<W: Way>(w: NodeWord, window: &[u8]) -> Option<&[u8]>
    requires { (proper w ≡ true) × (is_test (shape w) ≡ true) }
    ensures { Leaves W.order w (seen W.order window.now) result }
{
    let Some((&b, left)) = W::next(window) else {
        return None;
    };
    if !word_passes(w, b) {
        return None;
    }
    Some(left)
}

// What a jump leaves of it.
fn jump<W: Way>(w: NodeWord, window: &[u8]) -> Option<&[u8]>
    requires { kind_of w ≡ 3 }
    ensures { Leaves W.order w (seen W.order window.now) result }
{
    let n = usize::from(first(w));
    if window.len() < n {
        return None;
    }
    Some(W::without(window, n))
}

// A branch, which holds nodes of fixed length only: what it leaves of mem.
fn flat<W: Way>(branch: &[NodeWord], mem: &[u8]) -> Option<usize>
    requires { flat_words branch.now ≡ true }
    ensures { result ≡ answer (run W.order (prog branch.now) (seen W.order mem.now)) }
{
    let mut ns = branch;
    let mut m = mem;
    loop {
        let Some((&w, rest)) = ns.split_first() else {
            return Some(m.len());
        };
        ns = rest;
        if kind(w) == JUMP {
            m = jump::<W>(w, m)?;
        } else {
            m = test::<W>(w, m)?;
        }
    }
}

// What the first choice leaves of mem.
#[cycle(branches_check_choices_jumps)]
pub fn check<W: Way>(nodes: &[NodeWord], mem: &[u8]) -> Option<usize>
    requires { Sound nodes.now }
    ensures { result ≡ answer (run W.order (prog nodes.now) (seen W.order mem.now)) }
{
    let mut ns = nodes;
    let mut m = mem;
    loop {
        let Some((&w, rest)) = ns.split_first() else {
            return Some(m.len());
        };
        if tests_byte(w) {
            m = test::<W>(w, m)?;
        } else if kind(w) == JUMP {
            m = jump::<W>(w, m)?;
        } else {
            return choices::<W>(w, rest, m);
        }
        ns = rest;
    }
}

// A range, or alternatives with the range that directly follows them, before the rest.
#[cycle(branches_check_choices_jumps)]
fn choices<W: Way>(w: NodeWord, rest: &[NodeWord], mem: &[u8]) -> Option<usize>
    requires { Sound (w ∷ rest.now) × ((kind_of w ≡ 4) ⊎ (kind_of w ≡ 6)) }
    ensures { result ≡ answer (run W.order (prog (w ∷ rest.now)) (seen W.order mem.now)) }
{
    if kind(w) == JUMP_RANGE {
        return jumps::<W>(rest, mem, first(w), second(w));
    }
    let size = usize::from(count(w));
    let after = &rest[size..];
    let (tail, from, to) = match after.split_first() {
        Some((&x, tail)) if kind(x) == JUMP_RANGE => (tail, first(x), second(x)),
        _ => (after, 0, 0),
    };
    branches::<W>(&rest[..size], tail, mem, from, to)
}

// A range before the rest: the first of its lengths, of those that mem has room for, for which the rest fits.
#[cycle(branches_check_choices_jumps)]
fn jumps<W: Way>(rest: &[NodeWord], mem: &[u8], from: Field, to: Field) -> Option<usize>
    requires { Sound rest.now }
    ensures { result ≡ answer (run W.order (range from to ▹ prog rest.now) (seen W.order mem.now)) }
{
    let least = usize::from(from);
    let most = usize::from(to).min(mem.len());
    'lengths: {
        for n in least..most + 1 {
            let m = W::without(mem, W::length(least, most, n));
            if let Some(left) = check::<W>(rest, m) {
                break 'lengths Some(left);
            }
        }
        None
    }
}

// Alternatives, a range and the rest: the first branch and then the first length for which the rest fits. The loop over lengths leaves that
// over branches by its label, which 01 names, and so is not the one in jumps. Inlined it would double the stack that check takes for a range.
#[cycle(branches_check_choices_jumps)]
#[inline(never)]
fn branches<W: Way>(
    alts: &[NodeWord],
    rest: &[NodeWord],
    mem: &[u8],
    from: Field,
    to: Field,
) -> Option<usize>
    requires { SoundBranches alts.now × Sound rest.now }
    ensures { result ≡ answer (run W.order (alt (branches_of alts.now) ▹ range from to ▹ prog rest.now) (seen W.order mem.now)) }
{
    let least = usize::from(from);
    let mut bs = alts;
    let found = 'branches: loop {
        let Some((&w, after)) = bs.split_first() else {
            break 'branches None;
        };
        let size = usize::from(first(w));
        if let Some(left) = flat::<W>(&after[..size], mem) {
            let tail = W::without(mem, mem.len() - left);
            let most = usize::from(to).min(tail.len());
            for n in least..most + 1 {
                let m = W::without(tail, W::length(least, most, n));
                // All of the rest is asked: must-fail/rest_not_asked.edit asks none of it.
                if let Some(end) = check::<W>(&rest[0..], m) {
                    break 'branches Some(end);
                }
            }
        }
        bs = &after[size..];
    };
    found
}
