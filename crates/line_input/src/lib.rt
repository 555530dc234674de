// An input line by line. Of a line longer than its memory only as much is held as the memory has bytes, and it is
// passed over up to its LF.
//
// The work is done by `take`, on the bytes that a read has put into the buffer. For an input in any parts the calls of
// `next_line` take its lines, each once, the last one without LF too (`every_line_once`).
#![tactic(auto)]

ghost use Rattle.std.specs.Prelude.{◌≡◌, ◌≤◌, ℕ, List, length, Option, Some, Result};
ghost use Rattle.std.specs.Io.{ReadsAtMost};
ghost use Rattle.std.specs.Io.KnownBytes.{ReadConsumes};
ghost use Rattle.std.specs.declared.io.Error.{Error};
ghost use Rattle.line_input.specs.Lines.{LineRead, SameMemory, seen};
ghost use Rattle.line_input.specs.Messages.{failed_text};
ghost use Rattle.line_input.specs.Inner.Answers.{Takes};
ghost use Rattle.line_input.specs.Inner.Lines.{FilledBy, found_where};

use std::io::Read;
use std::{fmt, io};
use text_out::Out;

// What ends a program that reads an input and writes an output, before the input ends.
#[derive(Clone, Copy, Debug, PartialEq, Eq)]
pub enum Failed {
    Input,
    Output,
    Endless,
}

impl fmt::Display for Failed {
    ghost output = { λ failed. Some (failed_text failed) };

    #[tactic(auto, unfolding(crate::specs::Messages::failed_text))]
    fn fmt<W: fmt::Write>(&self, f: &mut fmt::Formatter<W>) -> fmt::Result {
        match self {
            Failed::Input => write!(f, "the input cannot be read"),
            Failed::Output => write!(f, "the output cannot be written"),
            Failed::Endless => write!(f, "the input does not end"),
        }
    }
}

// A reader as lines are read from it: which bytes it has left, where it says so, and what a read of it shows. That may
// be any relation, and nothing but a read shows it: so a contract can say which reads were made.
pub trait Source {
    ghost remaining: { Self → Option (List ℕ) };

    // Of the reader before it, its answer, the bytes in the buffer then, and the reader after it.
    ghost shows: { Self → Result ℕ Error → List ℕ → Self → Type 0 };

    fn read_part(&mut self, buffer: &mut [u8]) -> io::Result<usize>
        ensures bound { ReadsAtMost result buffer.new }
        ensures bytes { ReadConsumes (remaining self.old) (remaining self.new) result buffer.new }
        ensures shows { shows self.old result buffer.new self.new };
}

// Of a reader of the library a read shows which bytes it gave, where the reader says them.
impl<R: Read> Source for R {
    ghost remaining = { R.remaining };

    ghost shows = { λ before answer bytes after.
        ReadConsumes (R.remaining before) (R.remaining after) answer bytes };

    fn read_part(&mut self, buffer: &mut [u8]) -> io::Result<usize> {
        self.read(buffer)
    }
}

// An input line by line. The bytes of the buffer from `at` up to `end` are not taken yet, and what is held of a line
// stands at the front of its memory.
#[derive(Drop)]
pub struct Lines<'a> {
    pub buffer: &'a mut [u8],
    pub at: usize,
    pub end: usize,
    pub line: Out<'a>,
}

impl<'a> Lines<'a> {
    // Where reading starts.
    pub fn new(buffer: &'a mut [u8], line: &'a mut [u8]) -> Lines<'a>
        ensures same_memory { (result.buffer ≡ buffer.entry) × (result.line.bytes ≡ line.entry) }
        ensures nothing_read { (result.at ≡ 0) × (result.end ≡ 0) × (result.line.at ≡ 0) }
    {
        Lines {
            buffer,
            at: 0,
            end: 0,
            line: Out { bytes: line, at: 0 },
        }
    }

    // Takes bytes of the buffer, at most those of one line; whether it has ended.
    fn take(&mut self) -> bool
        requires { self.old.line.at ≤ length self.old.line.bytes.now }
        ensures same_memory { SameMemory self.old self.new }
        ensures buffer { self.new.buffer.now ≡ self.old.buffer.now }
        ensures taken { Takes self.old.buffer.now self.old.line.bytes.now self.old.at self.old.end self.old.line.at
            self.new.line.bytes.now (seen self.new (found_where result)) }
    {
        for at in self.at..self.end.min(self.buffer.len()) {
            let byte = self.buffer[at];
            self.at = at + 1;
            let ends = byte == b'\n';
            if ends {
                return true;
            }
            self.line.put_byte(byte);
        }
        false
    }

    // Reads once, over bytes that are taken.
    fn fill<R: Source>(&mut self, reader: &mut R) -> io::Result<usize>
        ensures same_memory { SameMemory self.old self.new }
        ensures line { self.new.line ≡ self.old.line }
        ensures filled { FilledBy R.shows reader.old reader.new
            (R.remaining reader.old) (R.remaining reader.new) self.new result }
    {
        self.at = 0;
        self.end = 0;
        self.end = reader.read_part(self.buffer)?;
        Ok(self.end)
    }

    // The next line, of which so many bytes are held, or none at the end of the input. A last line needs no LF.
    //
    // A proved loop has to end, and nothing says that an input does: so many reads are an error.
    pub fn next_line<R: Source>(&mut self, reader: &mut R) -> io::Result<Option<usize>>
        ensures same_memory { SameMemory self.old self.new }
        ensures line { LineRead R.shows reader.old reader.new
            (R.remaining reader.old) (R.remaining reader.new) self.old self.new result }
    {
        self.line.at = 0;
        if self.take() {
            return Ok(Some(self.line.at));
        }
        for _ in 0..u64::MAX {
            if self.fill(reader)? == 0 {
                return Ok((0 < self.line.at).then_some(self.line.at));
            }
            if self.take() {
                return Ok(Some(self.line.at));
            }
        }
        Err(io::Error::from(io::ErrorKind::TimedOut))
    }
}
