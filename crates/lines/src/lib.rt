// The lines of a listing, written into lent bytes by crate printing's writer.
#![tactic(auto)]

ghost use Rattle.std.specs.Prelude.{◌≡◌, ◌+◌, ◌*◌, ◌%◌, length};
ghost use mathlib.Core.List.{flat_map};
ghost use Rattle.def_meaning.specs.Words.{byte_size};
ghost use Rattle.nodes.specs.Nodes.{test_of};
ghost use Rattle.printing.specs.Writing.{Room, Writes};
ghost use Rattle.lines.specs.Lines.{number_line, numbers_line, byte_line, mask_line, test_line, node_line, program_lines, literal_line, literal_lines, literals_lines, cut, refused_line, literals_refused_line, programs_lines};
ghost use Rattle.lines.specs.Listed.{line_limit, listed_of};

use nodes::{ByteTest, Field, Node, NodeWord, byte_of};
use printing::Writer;

// A line that ends with a number.
fn put_number_line(w: &mut Writer<'_>, name: &[u8], n: usize)
    requires { Room w.old (length name.now + 21) }
    ensures { Writes w.old (number_line name.now n) w.new }
{
    w.put_bytes(name);
    w.put_decimal(n);
    w.put_byte(b'\n');
}

// A line that ends with two numbers and what stands between them.
fn put_numbers_line(w: &mut Writer<'_>, name: &[u8], n: usize, between: &[u8], m: usize)
    requires { Room w.old (length name.now + length between.now + 41) }
    ensures { Writes w.old (numbers_line name.now n between.now m) w.new }
{
    w.put_bytes(name);
    w.put_decimal(n);
    put_number_line(w, between, m);
}

// A line that ends with a byte. The values and masks of a sound program are bytes: the remainder spares a requirement.
fn put_byte_line(w: &mut Writer<'_>, name: &[u8], v: Field)
    requires { Room w.old (length name.now + 3) }
    ensures { Writes w.old (byte_line name.now (v % byte_size)) w.new }
{
    w.put_bytes(name);
    w.put_hex(byte_of(v));
    w.put_byte(b'\n');
}

// A line that ends with a value and a mask.
fn put_mask_line(w: &mut Writer<'_>, name: &[u8], v: Field, m: Field)
    requires { Room w.old (length name.now + 6) }
    ensures { Writes w.old (mask_line name.now (v % byte_size) (m % byte_size)) w.new }
{
    w.put_bytes(name);
    w.put_hex(byte_of(v));
    put_byte_line(w, b" ", m);
}

fn put_test(w: &mut Writer<'_>, t: ByteTest)
    requires { Room w.old 16 }
    ensures { Writes w.old (test_line (test_of t)) w.new }
{
    match t {
        ByteTest::Byte(v) => put_byte_line(w, b"byte ", v),
        ByteTest::Mask(v, m) => put_mask_line(w, b"mask ", v, m),
        ByteTest::NegatedMask(v, m) => put_mask_line(w, b"not ", v, m),
        ByteTest::Dot => w.put_bytes(b"dot\n"),
    }
}

// The line of a node word. A word of a kind that 01 does not have writes nothing: no program that was compiled holds one.
fn put_node(w: &mut Writer<'_>, word: NodeWord)
    requires { Room w.old 64 }
    ensures { Writes w.old (node_line word) w.new }
{
    match nodes::node_of(word) {
        Some(Node::One(t)) => put_test(w, t),
        Some(Node::Jump(n)) => put_number_line(w, b"jump ", usize::from(n)),
        Some(Node::JumpRange(a, b)) => {
            put_numbers_line(w, b"range ", usize::from(a), b" ", usize::from(b))
        }
        Some(Node::Alternation(n)) => put_number_line(w, b"alt ", usize::from(n)),
        Some(Node::AltBranch(n)) => put_number_line(w, b"branch ", usize::from(n)),
        None => {}
    }
}

// A program: its name with the count of its nodes, and their lines.
fn put_program(w: &mut Writer<'_>, name: &[u8], words: &[NodeWord])
    requires { Room w.old (length name.now + 85 + line_limit * length words.now) }
    ensures { Writes w.old (program_lines name.now words.now) w.new }
{
    put_number_line(w, name, words.len());
    for word in words {
        put_node(w, *word);
    }
}

// Both programs.
pub fn put_programs(w: &mut Writer<'_>, forward: &[NodeWord], reverse: &[NodeWord])
    requires { Room w.old (250 + line_limit * length forward.now + line_limit * length reverse.now) }
    ensures { Writes w.old (programs_lines forward.now reverse.now) w.new }
{
    put_program(w, b"forward ", forward);
    put_program(w, b"reverse ", reverse);
}

fn put_literal(w: &mut Writer<'_>, s: &[u8])
    requires { Room w.old (2 * length s.now + 1) }
    ensures { Writes w.old (literal_line s.now) w.new }
{
    w.put_hexes(s);
    w.put_byte(b'\n');
}

// The literals that stand one after another in the bytes. A length that reaches past the bytes takes what there is: the picker gives none.
fn put_each_literal(w: &mut Writer<'_>, lens: &[u16], bytes: &[u8])
    requires { Room w.old (length lens.now + 2 * length bytes.now) }
    ensures { Writes w.old (literal_lines (cut lens.now bytes.now)) w.new }
{
    let mut rest = bytes;
    for n in lens {
        let (literal, after) = rest.split_at(usize::from(*n).min(rest.len()));
        put_literal(w, literal);
        rest = after;
    }
}

// The literals: their count, their rank, and their lines.
pub fn put_literals(w: &mut Writer<'_>, rank: usize, lens: &[u16], bytes: &[u8])
    requires { Room w.old (56 + length lens.now + 2 * length bytes.now) }
    ensures { Writes w.old (literals_lines rank (cut lens.now bytes.now)) w.new }
{
    put_numbers_line(w, b"literals ", lens.len(), b" rank ", rank);
    put_each_literal(w, lens, bytes);
}

// A refused text or compiling. The number is no Refusal, since what may not change is the line that is promised for each number.
pub fn put_refused(w: &mut Writer<'_>, number: usize, place: usize)
    requires { Room w.old 53 }
    ensures { Writes w.old (refused_line number place) w.new }
{
    put_numbers_line(w, b"refused ", number, b" at ", place);
}

// Refused literals, by a number for the same reason.
pub fn put_literals_refused(w: &mut Writer<'_>, number: usize)
    requires { Room w.old 38 }
    ensures { Writes w.old (literals_refused_line number) w.new }
{
    put_number_line(w, b"literals refused ", number);
}

// Too little room for a listing, and how long it is.
#[derive(Clone, Copy, Debug, PartialEq, Eq)]
pub struct NoRoom {
    pub length: usize,
}

// What a listing comes to: its length, if the buffer has room for it.
pub fn room_for(length: usize, room: usize) -> Result<usize, NoRoom>
    ensures { result ≡ listed_of length room }
{
    if length <= room {
        Ok(length)
    } else {
        Err(NoRoom { length })
    }
}
