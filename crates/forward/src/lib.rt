// Translated from boreal's boreal/src/matcher/validator/simple.rs (MIT OR Apache-2.0), commit 7010b5e967; see NOTICE.
// The forward check: the first choice, short jumps before long, that fits at the window's start.
#![tactic(auto)]

ghost use Rattle.std.specs.Prelude.{◌≡◌};
ghost use Rattle.def_meaning.specs.Choices.{short};
ghost use Rattle.def_meaning.specs.Rows.{forward};
ghost use Rattle.def_meaning.specs.Words.{prog, Sound};
ghost use Rattle.steps.specs.Steps.{answer};

use nodes::NodeWord;
use search::Way;

pub struct Forward;

impl Way for Forward {
    ghost order = { short };

    fn next(window: &[u8]) -> Option<(&u8, &[u8])> {
        window.split_first()
    }

    fn without(window: &[u8], n: usize) -> &[u8] {
        &window[n..]
    }

    fn length(_least: usize, _most: usize, n: usize) -> usize {
        n
    }
}

// What the first choice leaves of mem.
pub fn check(nodes: &[NodeWord], mem: &[u8]) -> Option<usize>
    requires { Sound nodes.now }
    ensures { result ≡ answer (forward (prog nodes.now) mem.now) }
{
    search::check::<Forward>(nodes, mem)
}
