// What the programs that replay recorded answers share: the numbers of a line, the counts of lines that agree and
// differ, and what is said of a line and at the end.
#![tactic(auto)]

ghost use Rattle.std.specs.Prelude.{Bool, List, ℕ, ◌≡◌, ◌≤◌, length, take, OnOk, IfOk, IfSome};
ghost use Rattle.replay.specs.Inner.Numbers.{max_fields, number_at, fields_of, values_read};
ghost use Rattle.std.specs.Io.KnownBytes.{Appends};
ghost use Rattle.replay.specs.Said.{line_said, bad_said, other_said, said_of, unless, counted_unless, end_said};
ghost use Rattle.replay.specs.Replays.{step_of, line_step, line_text, held_bytes, known_input, Replayed, ReplayedFrom};
ghost use Rattle.line_input.specs.Lines.{SameMemory};
ghost use Rattle.replay.specs.Inner.Lines.{near_enough, words_kept, store_from, one_more, counted_of};

use line_input::{Lines, Source};
use std::io;
use std::io::Write;
use words::{put, rest};

// How many numbers a line has at most, and how many words of a list it gives at most.
pub const MAX_FIELDS: usize = 18;

pub const MAX_WORDS: usize = 16;

// So many bytes of a line are held: one more than a line may have, which shows that it is too long.
pub const HELD_LINE: usize = 257;

// The input is read in parts of at most so many bytes.
const BUFFER_BYTES: usize = 4096;

// The largest number that is read: 19 digits 9.
const MOST_VALUE: u64 = 9999999999999999999;

// The numbers of a line.
// kept: an array with a count, since there is no heap; what reads them reads the slice that `numbers` answers.
#[derive(Clone, Copy, Debug, PartialEq, Eq)]
pub struct Fields {
    pub values: [u64; MAX_FIELDS],
    pub count: usize,
}

// What came of a line: nothing to say, an answer as recorded, another answer, another binding of a variable than the
// one recorded, another word left than the one recorded, or no line of the form.
#[derive(Clone, Copy, Debug, PartialEq, Eq)]
pub enum Verdict {
    Quiet,
    Agrees,
    Differs(u64),
    BindsOther(u16),
    LeavesOther(u16),
    NotOfForm,
}

// How many lines were read, how many of them had an answer to check (of a question, or words left), and how many lines
// do not agree. Each stops at the largest number.
#[derive(Clone, Copy, Debug, PartialEq, Eq)]
pub struct Tally {
    pub lines: u64,
    pub questions: u64,
    pub differ: u64,
}

// The number at a position of a line, by its decimal digits, of which it has at least one, and the position past them.
// kept: digits added up here, and no `parse`: that takes a text, and to see that bytes are one takes longer than this.
fn number_at(line: &[u8], at: usize) -> Option<(u64, usize)>
    ensures { result ≡ number_at line.now at }
{
    let text = rest(line, at);
    let mut value: u64 = 0;
    for (count, &byte) in text.iter().enumerate() {
        if !byte.is_ascii_digit() {
            return (0 < count).then_some((value, at + count));
        }
        let full = MOST_VALUE / 10 < value;
        if full {
            return None;
        }
        value = value * 10 + u64::from(byte - b'0');
    }
    (at < line.len()).then_some((value, line.len()))
}

// The numbers of a line after its letter: at most 18, each after one space; none where it is not a letter and numbers.
pub fn fields_of(line: &[u8]) -> Option<Fields>
    ensures numbers { result ≡ fields_of line.now }
    ensures few { IfSome result (λ f. f.count ≤ max_fields) }
{
    let mut values = [0u64; MAX_FIELDS];
    let mut at: usize = 1;
    for count in 0..MAX_FIELDS {
        if line.len() <= at {
            return Some(Fields { values, count });
        }
        if line[at] != b' ' {
            return None;
        }
        let (value, next) = number_at(line, at + 1)?;
        values[count] = value;
        at = next;
    }
    let more = at < line.len();
    if more {
        return None;
    }
    Some(Fields {
        values,
        count: MAX_FIELDS,
    })
}

impl Fields {
    pub fn numbers(&self) -> &[u64]
        requires { self.now.count ≤ max_fields }
        ensures numbers { result.now ≡ values_read self.now }
        ensures few { length result.now ≤ max_fields }
    {
        &self.values[..self.count]
    }
}

// Numbers stored as the words from a word on, up to the first that is no word; whether all are words.
// kept: a bound on the place, here and where it is handed on, since the places of the words are to be numbers of a usize.
pub fn store(list: &mut [u16], base: usize, values: &[u64]) -> bool
    requires { base ≤ near_enough }
    ensures { words_kept list.new result ≡ store_from list.old base values.now }
{
    for (i, &value) in values.iter().enumerate() {
        let Ok(word) = u16::try_from(value) else {
            return false;
        };
        put(list, base + i, word);
    }
    true
}

// One more, but for the largest number.
fn one_more(n: u64) -> u64
    ensures { result ≡ one_more n }
{
    n.saturating_add(1)
}

impl Tally {
    // The counts after a line. One that is not of the form counts as a line that differs.
    #[tactic(auto, unfolding(crate::specs::Inner::Lines::counted_of))]
    pub fn counted(self, verdict: Verdict) -> Tally
        ensures { result ≡ counted_of self verdict }
    {
        let lines = one_more(self.lines);
        match verdict {
            Verdict::Quiet => Tally { lines, ..self },
            Verdict::Agrees => Tally {
                lines,
                questions: one_more(self.questions),
                ..self
            },
            Verdict::Differs(_) | Verdict::BindsOther(_) | Verdict::LeavesOther(_) => Tally {
                lines,
                questions: one_more(self.questions),
                differ: one_more(self.differ),
            },
            Verdict::NotOfForm => Tally {
                lines,
                differ: one_more(self.differ),
                ..self
            },
        }
    }
}

// The number of a line, before what there is to say of it.
fn say_line<W: Write>(out: &mut W, number: u64) -> io::Result<()>
    ensures { OnOk result (Appends (W.contents out.old) (W.contents out.new) (line_said number)) }
{
    write!(out, "line {number}")
}

fn say_bad<W: Write>(out: &mut W, number: u64) -> io::Result<()>
    ensures { OnOk result (Appends (W.contents out.old) (W.contents out.new) (bad_said number)) }
{
    say_line(out, number)?;
    out.write_all(b" is not of the form\n")
}

// A line whose answer is another: what is another, and its number.
fn say_other<W: Write>(
    out: &mut W,
    number: u64,
    text: &[u8],
    what: &[u8],
    got: u64,
) -> io::Result<()>
    ensures { OnOk result (Appends (W.contents out.old) (W.contents out.new)
        (other_said number text.now what.now got)) }
{
    say_line(out, number)?;
    out.write_all(b": ")?;
    out.write_all(text)?;
    out.write_all(what)?;
    writeln!(out, "{got}")
}

// What there is to say of a line.
#[tactic(auto, unfolding(crate::specs::Said::said_of))]
pub fn say<W: Write>(out: &mut W, number: u64, text: &[u8], verdict: Verdict) -> io::Result<()>
    ensures { OnOk result (Appends (W.contents out.old) (W.contents out.new) (said_of number text.now verdict)) }
{
    match verdict {
        Verdict::Quiet | Verdict::Agrees => Ok(()),
        Verdict::Differs(got) => say_other(out, number, text, b": got ", got),
        Verdict::BindsOther(variable) => say_other(
            out,
            number,
            text,
            b": another binding of variable ",
            variable as u64,
        ),
        Verdict::LeavesOther(word) => say_other(out, number, text, b": left ", word as u64),
        Verdict::NotOfForm => say_bad(out, number),
    }
}

// What is said unless all is well, and counted as a line that does not agree.
#[tactic(auto, unfolding(crate::specs::Said::unless, crate::specs::Said::counted_unless))]
fn finish_unless<W: Write>(out: &mut W, tally: Tally, well: bool, text: &[u8]) -> io::Result<Tally>
    ensures said { OnOk result (Appends (W.contents out.old) (W.contents out.new) (unless well text.now)) }
    ensures counted { IfOk result (λ t. t ≡ counted_unless well tally) }
{
    if well {
        return Ok(tally);
    }
    out.write_all(text)?;
    Ok(tally.counted(Verdict::NotOfForm))
}

// How many answers were checked and how many lines do not agree, where all of the input was read and its last list is
// complete, or not.
pub fn finish<W: Write>(out: &mut W, tally: Tally, read: bool, complete: bool) -> io::Result<()>
    ensures { OnOk result (Appends (W.contents out.old) (W.contents out.new) (end_said tally read complete)) }
{
    let tally = finish_unless(out, tally, read, b"the input cannot be read\n")?;
    let tally = finish_unless(out, tally, complete, b"the last list is not complete\n")?;
    let questions = tally.questions;
    let differ = tally.differ;
    writeln!(out, "checked {questions} answers, {differ} differ")
}

// What is held of recorded answers from line to line: the words of a list, say, and how much of it was read.
pub trait Recorded {
    ghost use Rattle.replay.specs.declared.Verdict.{Verdict};

    // what is held after a line of a letter and numbers, and what came of the line
    ghost step: { Self → ℕ → List ℕ → Self × Verdict };

    // whether all of the list that was begun was read
    ghost complete: { Self → Bool };

    // A line of a letter and numbers.
    fn replay(&mut self, letter: u8, numbers: &[u64]) -> Verdict
        ensures { (self.new, result) ≡ step self.old letter numbers.now };

    fn is_complete(&self) -> bool
        ensures { result ≡ complete self.now };
}

// A line of recorded answers: an empty one is not of the form, `#` says nothing, else it is a letter and numbers.
#[tactic(auto, unfolding(crate::specs::Replays::step_of, crate::specs::Replays::numbers_step))]
pub fn replay_line<T: Recorded>(recorded: &mut T, line: &[u8]) -> Verdict
    ensures { (recorded.new, result) ≡ step_of T.step recorded.old line.now }
{
    if line.len() == 0 {
        return Verdict::NotOfForm;
    }
    let letter = line[0];
    if letter == b'#' {
        return Verdict::Quiet;
    }
    let Some(fields) = fields_of(line) else {
        return Verdict::NotOfForm;
    };
    recorded.replay(letter, fields.numbers())
}

// A line asked again. One that fills its memory is too long, and not of the form.
#[tactic(auto, unfolding(crate::specs::Replays::line_step))]
fn ask_line<T: Recorded>(recorded: &mut T, line: &[u8], most: usize) -> Verdict
    ensures { (recorded.new, result) ≡ line_step T.step most recorded.old line.now }
{
    if most <= line.len() {
        return Verdict::NotOfForm;
    }
    replay_line(recorded, line)
}

// So many bytes of a line are held.
fn held_of<'a>(lines: &'a Lines<'_>, count: usize) -> &'a [u8]
    requires { count ≤ length lines.now.line.bytes.now }
    ensures { result.now ≡ take count lines.now.line.bytes.now }
{
    &lines.line.bytes[..count]
}

// A line asked again, and what there is to say of it.
fn take_line<T: Recorded, W: Write>(
    recorded: &mut T,
    out: &mut W,
    line: &[u8],
    most: usize,
    tally: Tally,
) -> io::Result<Tally>
    ensures held { recorded.new ≡ (line_step T.step most recorded.old line.now).0 }
    ensures counted { IfOk result (λ t. t ≡ counted_of tally (line_step T.step most recorded.old line.now).1) }
    ensures said { OnOk result (Appends (W.contents out.old) (W.contents out.new)
        (line_text tally line.now (line_step T.step most recorded.old line.now).1)) }
{
    let verdict = ask_line(recorded, line, most);
    let tally = tally.counted(verdict);
    say(out, tally.lines, line, verdict)?;
    Ok(tally)
}

// All lines of the input, asked again one after another. A proved loop has to end, and nothing says that an input does:
// one with so many lines counts as one that cannot be read.
pub fn replay_all<T: Recorded, R: Source, W: Write>(
    recorded: &mut T,
    lines: &mut Lines,
    reader: &mut R,
    out: &mut W,
) -> io::Result<()>
    ensures same_memory { SameMemory lines.old lines.new }
    ensures replayed { OnOk result (ReplayedFrom R.shows R.remaining reader.old reader.new T.step T.complete
        (length lines.old.line.bytes.now) recorded.old recorded.new (known_input lines.old (R.remaining reader.old))
        lines.old lines.new (W.contents out.old) (W.contents out.new)) }
{
    let most = lines.line.bytes.len();
    let mut tally = Tally {
        lines: 0,
        questions: 0,
        differ: 0,
    };
    for _ in 0..u64::MAX {
        match lines.next_line(reader) {
            Ok(Some(length)) => {
                tally = take_line(recorded, out, held_of(lines, length), most, tally)?;
            }
            Ok(None) => return finish(out, tally, true, recorded.is_complete()),
            Err(_) => return finish(out, tally, false, recorded.is_complete()),
        }
    }
    finish(out, tally, false, recorded.is_complete())
}

// All lines of a reader, asked again, in memory of this call's own.
pub fn run<T: Recorded, R: Source, W: Write>(
    recorded: &mut T,
    reader: &mut R,
    out: &mut W,
) -> io::Result<()>
    ensures { OnOk result (Replayed R.shows reader.old reader.new T.step T.complete held_bytes
        recorded.old recorded.new (R.remaining reader.old) (W.contents out.old) (W.contents out.new)) }
{
    let mut buffer = [0u8; BUFFER_BYTES];
    let mut line = [0u8; HELD_LINE];
    replay_all(
        recorded,
        &mut Lines::new(&mut buffer, &mut line),
        reader,
        out,
    )
}
