// Translated from boreal's boreal/src/matcher/validator/simple.rs (MIT OR Apache-2.0), commit 7010b5e967; see NOTICE.
// The reverse check: the first choice, long jumps before short, that fits at the window's end, read from there.
#![tactic(auto)]

ghost use Rattle.std.specs.Prelude.{◌≡◌};
ghost use Rattle.def_meaning.specs.Choices.{long};
ghost use Rattle.def_meaning.specs.Rows.{backward};
ghost use Rattle.def_meaning.specs.Words.{prog, Sound};
ghost use Rattle.steps.specs.Steps.{answer};

use nodes::NodeWord;
use search::Way;

pub struct Backward;

impl Way for Backward {
    ghost order = { long };

    fn next(window: &[u8]) -> Option<(&u8, &[u8])> {
        window.split_last()
    }

    fn without(window: &[u8], n: usize) -> &[u8] {
        &window[..window.len() - n]
    }

    fn length(least: usize, most: usize, n: usize) -> usize {
        most - (n - least)
    }
}

// What the first choice leaves of mem.
pub fn check(nodes: &[NodeWord], mem: &[u8]) -> Option<usize>
    requires { Sound nodes.now }
    ensures { result ≡ answer (backward (prog nodes.now) mem.now) }
{
    search::check::<Backward>(nodes, mem)
}
