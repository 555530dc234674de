// Solves lists: reads any number of lists in the text format of docs/FORMAT.md from standard input, and prints for each
// question `? solve` the verdict by its code and in words, and for a typing the sort and the name of each expression,
// the measure and the chosen overloads. A line that is not of the format is named by its number, with what was
// expected, and the rest of its list is passed over.
//
// The work is done by list_lines: what a line makes of the list, and what is printed for it (`hear`). Here lines are
// only read and written: that each is taken once and that what was put is what is written is proved of each reader and
// writer that say which bytes they have left and hold (`solve_all`). Memory is bounded whatever the input's length and
// the length of its lines: of a line longer than 201 bytes only those are looked at, which shows that it is too long.
#![tactic(auto)]

ghost use Rattle.std.specs.Prelude.{◌≡◌, ◌<◌, ◌≤◌, length, take, OnOk};
ghost use Rattle.std.specs.Io.KnownBytes.{Appends};
ghost use Rattle.list_reader.specs.Taking.{line_taken};
ghost use Rattle.list_reader.specs.Taking.{stage_is};
ghost use Rattle.list_memory.specs.declared.Stage.{Stage};
ghost use Rattle.list_lines.specs.Lines.{unasked_text};
ghost use Rattle.list_lines.specs.Longest.{printed_room, held_line};
ghost use Rattle.solve_lists.specs.Printed.{number_text, line_printed, InputPrinted};

use line_input::{Failed, Lines};
use list_lines::{HELD_LINE, PRINTED_ROOM, finish, hear};
use list_memory::LIST_WORDS;
use list_reader::List;
use std::io::{Read, Write};
use std::process::ExitCode;
use text_out::Out;

// Bytes of the output written.
fn write<W: Write>(to: &mut W, bytes: &[u8]) -> Result<(), Failed>
    ensures { OnOk result (Appends (W.contents to.old) (W.contents to.new) bytes.now) }
{
    to.write_all(bytes).map_err(|_| Failed::Output)
}

// The number of a line, where it is to stand before what there is to say of it.
#[tactic(auto, unfolding(crate::specs::Printed::number_text))]
fn write_number<W: Write>(to: &mut W, numbered: bool, number: u64) -> Result<(), Failed>
    ensures { OnOk result (Appends (W.contents to.old) (W.contents to.new) (number_text numbered number)) }
{
    if numbered {
        return write!(to, "line {number}: ").map_err(|_| Failed::Output);
    }
    Ok(())
}

// A line of the input, and its output, of which nothing is cut (`nothing_is_cut` of list_lines).
fn write_line<W: Write>(
    to: &mut W,
    list: &mut List,
    line: &[u8],
    number: u64,
    memory: &mut [u8],
) -> Result<(), Failed>
    requires { (length line.now ≤ held_line) × (printed_room ≤ length memory.old) }
    ensures words { list.new.words ≡ (line_taken list.old.words line.now).words }
    ensures written { OnOk result
        (Appends (W.contents to.old) (W.contents to.new) (line_printed number list.old.words line.now)) }
{
    let mut out = Out {
        bytes: memory,
        at: 0,
    };
    let numbered = hear(list, line, &mut out);
    write_number(to, numbered, number)?;
    let end = out.at;
    write(to, &out.bytes[..end])
}

// What is held of a line.
fn held_of<'a>(lines: &'a Lines<'_>, held: usize) -> &'a [u8]
    requires { held ≤ length lines.now.line.bytes.now }
    ensures { result.now ≡ take held lines.now.line.bytes.now }
{
    &lines.line.bytes[..held]
}

// What there is to say at the end of the input.
fn write_end<W: Write>(to: &mut W, list: &List, memory: &mut [u8]) -> Result<(), Failed>
    requires { printed_room ≤ length memory.old }
    ensures { OnOk result (Appends (W.contents to.old) (W.contents to.new)
        (unasked_text (stage_is list.now.words Stage.Reading))) }
{
    let mut out = Out {
        bytes: memory,
        at: 0,
    };
    finish(list, &mut out);
    let end = out.at;
    write(to, &out.bytes[..end])
}

// All lines. A proved loop has to end, and nothing says that an input does: so many lines no run takes.
fn solve_all<R: Read, W: Write>(
    reader: &mut R,
    to: &mut W,
    list: &mut List,
    buffer: &mut [u8],
    line: &mut [u8],
    out: &mut [u8],
) -> Result<(), Failed>
    requires { (length line.old ≤ held_line) × (printed_room ≤ length out.old) }
    ensures { OnOk result (0 < length buffer.old → 0 < length line.old
        → InputPrinted (R.remaining reader.old) (W.contents to.old) (W.contents to.new)
        list.old.words (length line.old)) }
{
    let mut lines = Lines::new(buffer, line);
    for number in 1..=u64::MAX {
        match lines.next_line(reader) {
            Ok(Some(held)) => write_line(to, list, held_of(&lines, held), number, out)?,
            Ok(None) => return write_end(to, list, out),
            Err(_) => return Err(Failed::Input),
        }
    }
    Err(Failed::Endless)
}

// A read or a write that failed ends the program with status 1.
fn main(rt: HostRuntime) -> ExitCode {
    let mut reader = rt.stdin();
    let mut to = rt.stdout();
    let mut list = List {
        words: [0; LIST_WORDS],
    };
    let mut buffer = [0u8; BUFFER_BYTES];
    let mut line = [0u8; HELD_LINE];
    let mut out = [0u8; PRINTED_ROOM];
    match solve_all(
        &mut reader,
        &mut to,
        &mut list,
        &mut buffer,
        &mut line,
        &mut out,
    ) {
        Ok(()) => ExitCode::SUCCESS,
        Err(failed) => {
            let _ = eprintln!(rt; "solve_lists: {failed}");
            if failed == Failed::Input && write_end(&mut to, &list, &mut out).is_err() {
                let _ = eprintln!(rt; "solve_lists: {}", Failed::Output);
            }
            ExitCode::FAILURE
        }
    }
}

// The input is read in parts of at most so many bytes.
const BUFFER_BYTES: usize = 65536;
