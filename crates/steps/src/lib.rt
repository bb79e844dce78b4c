// Translated from boreal's boreal/src/matcher/validator/simple.rs (MIT OR Apache-2.0), commit 7010b5e967; see NOTICE.
// What both checks ask of one word and one byte.
#![tactic(auto)]

ghost use Rattle.std.specs.Prelude.{◌≡◌, true};
ghost use Rattle.def_meaning.specs.Words.{shape, proper};
ghost use Rattle.steps.specs.Steps.{is_test, pass_shape};

use nodes::{BYTE, DOT, MASK, NEGATED_MASK, NodeWord, byte_of, first, kind, second};

// Whether a word asks something of one byte. Byte stands first here and below, and each kind has an arm: most nodes are bytes, and with
// one `matches!` of the four kinds, and Byte as an arm below, the searches take up to twice the time.
#[tactic(auto, unfolding(def_meaning::specs::Words::shape, def_meaning::specs::Words::shape_by))]
pub fn tests_byte(w: NodeWord) -> bool
    ensures { result ≡ is_test (shape w) }
{
    let k = kind(w);
    if k == BYTE {
        return true;
    }
    match k {
        MASK => true,
        NEGATED_MASK => true,
        DOT => true,
        _ => false,
    }
}

// Whether a byte passes the test that a word says. The value and the mask of a proper word are bytes, and are compared as such.
#[tactic(auto, using(crate::proofs::Tests::value_fits, crate::proofs::Tests::mask_fits, crate::proofs::Tests::negated_mask_fits), unfolding(def_meaning::specs::Words::shape, def_meaning::specs::Words::shape_by, def_meaning::specs::Programs::pass))]
pub fn word_passes(w: NodeWord, c: u8) -> bool
    requires { proper w ≡ true }
    ensures { result ≡ pass_shape (shape w) c }
{
    let a = byte_of(first(w));
    let b = byte_of(second(w));
    let k = kind(w);
    if k == BYTE {
        return c == a;
    }
    match k {
        MASK => (c & b) == a,
        NEGATED_MASK => (c & b) != a,
        DOT => c != b'\n',
        _ => false,
    }
}
