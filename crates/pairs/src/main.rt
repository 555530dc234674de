// The pair program of document 01: two lines to a pair, each a sort in mCRL2 spelling, and one line of output for each
// pair: order, join, meet, distance, and whether the first sort converts into the second. It reads standard input and
// writes standard output, in bounded memory whatever the input's length and the length of its lines.
//
// The work is done by pair_input: for an input in any parts, what `feed` puts for each part in turn and `finish` at the
// end is `output` of crates/pair_line/specs/PairProgram.antt (`parts_exactly`). Here bytes are only read and written:
// that each part is taken whole and once, and that what was put is what is written, is proved of each reader and writer
// that say which bytes they have left and hold (`take_bytes`, `read_all`). Standard input and output do not say it.
#![tactic(auto)]

ghost use Rattle.std.specs.Prelude.{◌≡◌, OnOk, ◌≤◌, [], length, take};
ghost use Rattle.std.specs.Io.KnownBytes.{Appends};
ghost use Rattle.pair_input.specs.ByteByByte.{Lines, take_bytes, at_end};
ghost use Rattle.pair_input.specs.HeldIn.{held_in};
ghost use Rattle.pairs.specs.Printed.{AfterRead, AllPrinted};

use line_input::Failed;
use pair_input::HeldLines;
use std::io::{Read, Write};
use std::process::ExitCode;

// The lines held, and the output for them: a buffer that it is put into, and where it is written.
#[derive(Drop)]
struct Pairs<W> {
    lines: HeldLines,
    out: [u8; OUT_BYTES],
    to: W,
}

impl<W: Write> Pairs<W> {
    // The front of the buffer written.
    fn write(&mut self, count: usize) -> Result<(), Failed>
        requires { count ≤ length self.old.out }
        ensures written { OnOk result (Appends (W.contents self.old.to) (W.contents self.new.to)
            (take count self.old.out)) }
        ensures kept { (self.new.lines ≡ self.old.lines) × (length self.new.out ≡ length self.old.out) }
    {
        self.to
            .write_all(&self.out[..count])
            .map_err(|_| Failed::Output)
    }

    // Bytes that were read: the output for them is written each time that the buffer is full.
    // kept: a loop by hand, since how many bytes a part has is known only once it is fed.
    fn take_bytes(&mut self, bytes: &[u8]) -> Result<(), Failed>
        ensures taken { OnOk result (held_in self.new.lines ≡ (take_bytes (held_in self.old.lines) bytes.now).lines) }
        ensures written { OnOk result (Appends (W.contents self.old.to) (W.contents self.new.to)
            (take_bytes (held_in self.old.lines) bytes.now).output) }
    {
        let mut from = 0;
        while from < bytes.len() {
            let fed = self.lines.feed(&bytes[from..], &mut self.out);
            from += fed.used;
            self.write(fed.at)?;
        }
        Ok(())
    }

    // The end of the input, and the output for it.
    fn at_end(&mut self) -> Result<(), Failed>
        ensures { OnOk result (Appends (W.contents self.old.to) (W.contents self.new.to)
            (at_end (held_in self.old.lines))) }
    {
        let count = self.lines.finish(&mut self.out);
        self.write(count)
    }

    // Reads once: whether the input goes on.
    fn read_some<R: Read>(&mut self, reader: &mut R) -> Result<bool, Failed>
        ensures { AfterRead result (R.remaining reader.old) (R.remaining reader.new)
            (W.contents self.old.to) (W.contents self.new.to) (held_in self.old.lines) (held_in self.new.lines) }
    {
        let mut buffer = [0u8; BUFFER_BYTES];
        match reader.read(&mut buffer) {
            Err(_) => Err(Failed::Input),
            Ok(0) => {
                self.at_end()?;
                Ok(false)
            }
            Ok(count) => {
                self.take_bytes(&buffer[..count])?;
                Ok(true)
            }
        }
    }

    // The whole input. A proved loop has to end, and nothing says that an input does: the loop counts its turns, up to
    // a number that no run uses up.
    fn read_all<R: Read>(&mut self, reader: &mut R) -> Result<(), Failed>
        requires { held_in self.old.lines ≡ Lines.first [] }
        ensures { OnOk result (AllPrinted (R.remaining reader.old) (R.remaining reader.new)
            (W.contents self.old.to) (W.contents self.new.to)) }
    {
        for _ in 0..u64::MAX {
            if !self.read_some(reader)? {
                return Ok(());
            }
        }
        Err(Failed::Endless)
    }
}

// A read or a write that failed ends the program with status 1.
fn main(rt: HostRuntime) -> ExitCode {
    let mut reader = rt.stdin();
    let mut pairs = Pairs {
        lines: HeldLines::new(),
        out: [0; OUT_BYTES],
        to: rt.stdout(),
    };
    match pairs.read_all(&mut reader) {
        Ok(()) => ExitCode::SUCCESS,
        Err(failed) => {
            let _ = eprintln!(rt; "pairs: {failed}");
            ExitCode::FAILURE
        }
    }
}

// The output is written in parts of about so many bytes.
const OUT_BYTES: usize = 16384;

// The input is read in parts of at most so many bytes.
const BUFFER_BYTES: usize = 65536;
