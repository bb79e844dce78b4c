// Translated from boreal's boreal/src/atoms.rs (MIT OR Apache-2.0), commit 7010b5e967; see NOTICE.
// The score is the port's own; the walk over the atoms of a literal is the original's.
#![tactic(auto)]

ghost use Rattle.std.specs.Prelude.{◌≡◌, max, take};
ghost use Rattle.atoms.specs.Score.{atom_len, byte_score, atom_score, literal_score};

// What a search looks for: a run of at most `LEN` bytes of a literal.
#[derive(Clone, Copy, Debug, PartialEq, Eq)]
pub struct Atom;

impl Atom {
    pub const LEN: usize = 4;

    // The score of the atom at the start of some bytes.
    pub fn score(bytes: &[u8]) -> u32
        ensures { result ≡ atom_score (take atom_len bytes.now) }
    {
        bytes.iter().take(Atom::LEN).map(|b| byte_score(*b)).sum()
    }
}

pub fn byte_score(b: u8) -> u32
    ensures { result ≡ byte_score b }
{
    match b {
        0x00 | 0x20 | 0x90 | 0xCC | 0xFF => 10,
        _ => 20,
    }
}

pub fn literal_score(lit: &[u8]) -> u32
    ensures { result ≡ literal_score lit.now }
{
    // A literal shorter than an atom has no window, and is its own only atom.
    let mut best = Atom::score(lit);
    for atom in lit.windows(Atom::LEN) {
        best = best.max(Atom::score(atom));
    }
    best
}
