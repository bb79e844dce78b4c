// The listing of a text, as the listing program writes it.
#![tactic(auto)]

ghost use Rattle.std.specs.Prelude.{◌≡◌, ◌+◌, ◌*◌, length};
ghost use Rattle.def_reading.specs.Lists.{reading};
ghost use Rattle.printing.specs.Laid.{laid};
ghost use Rattle.printing.specs.Writing.{Room, Writes};
ghost use Rattle.lines.specs.Lines.{got_lines};
ghost use Rattle.lines.specs.Listed.{listed_of};
ghost use Rattle.lister.specs.Listings.{got_of, listing_of, listing_limit, lent_bytes, lent_lengths};

use base::{LENT_BYTES, LENT_LENGTHS, NODE_POOL};
use lines::NoRoom;
use nodes::NodeWord;
use printing::Writer;

// Picks the literals, into bytes and lengths of its own, and writes their lines.
fn put_picked(w: &mut Writer<'_>, text: &[u8])
    requires { Room w.old (56 + lent_lengths + 2 * lent_bytes) }
    ensures { Writes w.old (got_lines (got_of (reading text.now))) w.new }
{
    let mut bytes = [0u8; LENT_BYTES];
    let mut lens = [0u16; LENT_LENGTHS];
    // `as`: the library has no From<u32> for usize, here and below.
    match literaldoor::literals(text, &mut bytes, &mut lens) {
        Ok(picked) => lines::put_literals(w, picked.rank as usize, &lens[..picked.count], &bytes),
        Err(refused) => lines::put_literals_refused(w, refused.why.number() as usize),
    }
}

// Compiles the text, into pools of its own, and writes all the lines.
fn put_listing(w: &mut Writer<'_>, text: &[u8])
    requires { Room w.old listing_limit }
    ensures { Writes w.old (listing_of text.now) w.new }
{
    let mut forward: [NodeWord; NODE_POOL] = [0; NODE_POOL];
    let mut reverse: [NodeWord; NODE_POOL] = [0; NODE_POOL];
    match compiledoor::compile(text, &mut forward, &mut reverse) {
        Ok(made) => {
            lines::put_programs(w, &forward[..made.forward], &reverse[..made.reverse]);
            put_picked(w, text);
        }
        Err(refused) => lines::put_refused(w, refused.why.number() as usize, refused.place),
    }
}

// Writes the listing of a text: its length, if it fits. What fits is written in either case.
pub fn list_pattern(text: &[u8], out: &mut [u8]) -> Result<usize, NoRoom>
    ensures { (result ≡ listed_of (length (listing_of text.now)) (length out.old))
        × (out.new ≡ laid out.old 0 (listing_of text.now)) }
{
    let room = out.len();
    let mut w = Writer::new(out);
    put_listing(&mut w, text);
    lines::room_for(w.place(), room)
}
