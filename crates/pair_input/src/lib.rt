// The pair program of document 01 over an input that comes in parts: the lines of a pair are held in a bounded memory,
// and each pair's line of output is put into a bounded buffer.
#![tactic(auto)]

ghost use Rattle.std.specs.Prelude.{◌≡◌, [], ◌+◌, ◌≤◌, length};
ghost use Rattle.pair_line.specs.PairProgram.{pair as pair_of};
ghost use Rattle.text_out.specs.Put.{Put};
ghost use Rattle.text_out.specs.Outs.{then_put};
ghost use Rattle.pair_line.specs.Room.{line_room};
ghost use Rattle.pair_line.specs.Answers.{with_lf};
ghost use Rattle.held_line.specs.Holding.{line_at};
ghost use Rattle.pair_input.specs.ByteByByte.{Lines, take_byte, at_end};
ghost use Rattle.pair_input.specs.Held.{lines_of, Holds, holds_prop, byte_in_memory, Feeds};
ghost use Rattle.pair_input.specs.Inner.Held.{TurnKept};

use held_line::hold;
use pair_line::{Gathered, LINE_ROOM, put_line};
use text_out::Out;

// How many bytes are held: of the first line of a pair; or of the first line and, behind it, of the second.
// kept: two cases by name, as the definition of the lines that are held has them.
#[derive(Clone, Copy, Debug, PartialEq, Eq)]
pub enum Held {
    First(usize),
    Second(usize, usize),
}

// What is held after bytes of the input, how many of them were taken, and how many bytes of output there are.
#[derive(Clone, Copy, Debug, PartialEq, Eq)]
pub struct Fed {
    pub held: Held,
    pub used: usize,
    pub at: usize,
}

// The line of output of the pair that is held.
fn put_held(memory: &[u8], first: usize, second: usize, out: &mut Out)
    requires { first + second ≤ length memory.now }
    ensures { out.new
        ≡ then_put out.old
        (with_lf (pair_of (line_at memory.now 0 first) (line_at memory.now first second))) }
{
    put_line(
        Gathered::Pair(&memory[..first], &memory[first..first + second]),
        out,
    );
}

// A byte of the input; what is held then.
fn take_byte(memory: &mut [u8], held: Held, byte: u8, out: &mut Out) -> Held
    requires { Holds memory.old held }
    ensures kept { TurnKept (take_byte (lines_of memory.old held) byte) (byte_in_memory memory.old held byte)
        memory.new result }
    ensures put { out.new ≡ then_put out.old (take_byte (lines_of memory.old held) byte).output }
{
    match (held, byte) {
        (Held::First(first), b'\n') => Held::Second(first, 0),
        (Held::First(first), _) => Held::First(hold(memory, MOST_HELD, 0, first, byte)),
        (Held::Second(first, second), b'\n') => {
            put_held(memory, first, second, out);
            Held::First(0)
        }
        (Held::Second(first, second), _) => {
            Held::Second(first, hold(memory, MOST_HELD, first, second, byte))
        }
    }
}

// Bytes of the input, as many as the buffer has room for the output of. A buffer of LINE_ROOM bytes takes at least
// one.
pub fn feed(memory: &mut [u8], held: Held, bytes: &[u8], out: &mut [u8]) -> Fed
    requires { Holds memory.old held }
    ensures { Feeds memory.old held bytes.now out.old
        memory.new result.held out.new result.used result.at }
{
    let mut held = held;
    let room = out.len();
    let mut to = Out { bytes: out, at: 0 };
    for (used, &byte) in bytes.iter().enumerate() {
        if room - to.at < LINE_ROOM {
            return Fed {
                held,
                used,
                at: to.at,
            };
        }
        held = take_byte(memory, held, byte, &mut to);
    }
    Fed {
        held,
        used: bytes.len(),
        at: to.at,
    }
}

// The end of the input: the line of output for what is still held, and its length. A last nonempty line needs no LF.
pub fn finish(memory: &[u8], held: Held, out: &mut [u8]) -> usize
    requires { Holds memory.now held × (line_room ≤ length out.old) }
    ensures { Put out.old 0 (at_end (lines_of memory.now held)) out.new result }
{
    let mut to = Out { bytes: out, at: 0 };
    match held {
        Held::First(0) => {}
        Held::First(first) => put_line(Gathered::Alone(&memory[..first]), &mut to),
        Held::Second(first, 0) => put_line(Gathered::Alone(&memory[..first]), &mut to),
        Held::Second(first, second) => put_held(memory, first, second, &mut to),
    }
    to.at
}

// The lines that are held, one behind the other in a memory for two.
#[derive(Drop)]
pub struct HeldLines {
    pub memory: [u8; HELD_BYTES],
    pub held: Held,
    pub ghost holds: { Holds memory held } by { holds_prop memory held },
}

impl HeldLines {
    ghost use Rattle.pair_input.specs.HeldIn.{held_in};

    // No line is held yet.
    pub fn new() -> HeldLines
        ensures { held_in result ≡ Lines.first [] }
    {
        HeldLines {
            memory: [0; HELD_BYTES],
            held: Held::First(0),
        }
    }

    // Bytes of the input, as many as the buffer has room for the output of.
    pub fn feed(&mut self, bytes: &[u8], out: &mut [u8]) -> Fed
        ensures held { result.held ≡ self.new.held }
        ensures feeds { Feeds self.old.memory self.old.held bytes.now out.old
            self.new.memory self.new.held out.new result.used result.at }
    {
        let fed = feed(&mut self.memory, self.held, bytes, out);
        self.held = fed.held;
        fed
    }

    // The end of the input: the line of output for what is still held, and its length.
    pub fn finish(&self, out: &mut [u8]) -> usize
        requires { line_room ≤ length out.old }
        ensures { Put out.old 0 (at_end (held_in self.now)) out.new result }
    {
        finish(&self.memory, self.held, out)
    }
}

// So many bytes are held of a line: one more than a line may have, which shows that it is too long.
const MOST_HELD: usize = 201;

// The memory for two lines.
pub const HELD_BYTES: usize = 402;
