// What the benchmark runs: the search below the doors, at every place of one haystack. Soundness is tested once.
#![tactic(auto)]

ghost use Rattle.std.specs.Prelude.{◌≡◌, length};
ghost use Rattle.hits.specs.Hits.{last_hit, last_start, last_end};

use forward::Forward;
use nodes::NodeWord;
use reverse::Backward;
use search::Way;
use sound::is_sound;

// One more than the last place from which the search finds, or 0: also 0 for unsound words.
fn hits<W: Way>(words: &[NodeWord], hay: &[u8]) -> usize
    ensures { result ≡ last_hit W.order words.now hay.now (length hay.now) }
{
    if !is_sound(words) {
        return 0;
    }
    let mut last = 0;
    for i in 0..hay.len() {
        let window = W::without(hay, W::length(0, hay.len(), i));
        if search::check::<W>(words, window).is_some() {
            last = i + 1;
        }
    }
    last
}

// One more than the last start from which the forward search finds, or 0.
#[unsafe(no_mangle)]
pub extern "C" fn tm_hits(words: &[NodeWord], hay: &[u8]) -> usize
    ensures { result ≡ last_start words.now hay.now (length hay.now) }
{
    hits::<Forward>(words, hay)
}

// One more than the last end, below the haystack's, before which the reverse search finds, or 0.
#[unsafe(no_mangle)]
pub extern "C" fn tm_hits_back(words: &[NodeWord], hay: &[u8]) -> usize
    ensures { result ≡ last_end words.now hay.now (length hay.now) }
{
    hits::<Backward>(words, hay)
}
