// The pair program of document 01, for one pair of lines and for a line alone: each pair is answered on the fixed six
// sorts alone, in a storage of its own, and its line of output is put into the lent buffer.
#![tactic(auto)]

ghost use Rattle.std.specs.Prelude.{◌≡◌, true, false, [], ◌∷◌, ◌≤◌, length, OnOk, OnSome};
ghost use Rattle.resolved_sort.specs.Order.{bound as bound_of};
ghost use Rattle.resolved_sort.specs.Storage.{full_length};
ghost use Rattle.resolved_sort.specs.Checks.{first_failing};
ghost use Rattle.resolved_sort.specs.Entries.{tree_at};
ghost use Rattle.resolved_sort.specs.Index.{Indexed};
ghost use Rattle.pair_line.specs.PairProgram.{small_decimal, sign, sort_or_none, yes_or_no};
ghost use Rattle.pair_line.specs.PairProgram.{answer, line_of, pair as pair_of, single as single_of};
ghost use Rattle.sort_text.specs.Writing.{write_left};
ghost use Rattle.sort_text.specs.Reading.{max_line};
ghost use Rattle.text_out.specs.Outs.{then_put};
ghost use Rattle.pair_line.specs.Room.{Begun, BoundRoom};
ghost use Rattle.pair_line.specs.Inner.Room.{BothRead, RoomGrows, SortOrPut, LineLeft};
ghost use Rattle.pair_line.specs.Inner.Answers.{steps_text, wrong_text, length_check, LineTested};
ghost use Rattle.pair_line.specs.Answers.{printed, output_left, pair_left, single_left};

use resolved_sort::{Counts, FIXED_SORTS, Refusal, SLOTS, SORT_WORDS, SortId, Steps};
use sort_bounds::bound;
use sort_interner::{SortInterner, fill_index, put_fixed_six};
use sort_lexer::unread;
use sort_order::{is_materializable, partial_cmp, widening_distance};
use sort_reader::read_line;
use sort_recogniser::recognise;
use sort_text::{MAX_LINE, Unread};
use sort_writer::put_text;
use std::cmp::Ordering;
use text_out::Out;

// Lines of the input that one line of output answers: a pair; or a line alone at the end of the input.
// kept: two cases by name and no None for the second line, since a line alone is answered by 21 or by what is wrong.
#[derive(Clone, Copy)]
pub enum Gathered<'a> {
    Pair(&'a [u8], &'a [u8]),
    Alone(&'a [u8]),
}

// The sign of an order.
// kept: beside pack_order of sort_entries: the cases are the same and the answers are not, so one would take all four.
fn sign(order: Option<Ordering>) -> u8
    ensures { result ≡ sign order }
{
    match order {
        None => b'|',
        Some(Ordering::Equal) => b'=',
        Some(Ordering::Less) => b'<',
        Some(Ordering::Greater) => b'>',
    }
}

// `yes` or `no`.
fn yes_or_no(yes: bool) -> &'static [u8]
    ensures { result.now ≡ yes_or_no yes }
{
    if yes { b"yes" } else { b"no" }
}

// A number of one byte in decimal.
fn put_decimal(n: u8, out: &mut Out)
    ensures { out.new ≡ then_put out.old (small_decimal n) }
{
    out.put_number(u16::from(n));
}

// The head and the interior of a distance, or `none`.
#[tactic(auto, using(text_out::proofs::Outs::put_parts))]
fn put_steps(steps: Option<Steps>, out: &mut Out)
    ensures { out.new ≡ then_put out.old (steps_text steps) }
{
    match steps {
        Some(Steps { head, interior }) => {
            put_decimal(head, out);
            out.put_byte(b' ');
            put_decimal(interior, out);
        }
        None => out.put_text(b"none"),
    }
}

// The text of a join (up) or meet, or `none`. What it makes stays in the storage, where room does not end (`not_full`).
// kept: sorts and out apart, here and below, since a &mut in a struct within a struct is lost where its borrow ends.
fn put_bound(sorts: &mut SortInterner, up: bool, lhs: SortId, rhs: SortId, out: &mut Out)
    requires room { BoundRoom sorts.old.words.now sorts.old.counts.sorts sorts.old.counts.entries lhs.0 rhs.0 }
    requires indexed { Indexed sorts.old.words.now sorts.old.counts.sorts sorts.old.index.now }
    ensures put { out.new
        ≡ then_put out.old
        (sort_or_none (bound_of up (tree_at sorts.old.words.now sorts.old.counts.sorts lhs.0)
        (tree_at sorts.old.words.now sorts.old.counts.sorts rhs.0))) }
    ensures grows { RoomGrows sorts.old.words.now sorts.old.counts.sorts sorts.old.counts.entries
        sorts.new.words.now sorts.new.counts.sorts sorts.new.counts.entries }
    ensures indexed { Indexed sorts.new.words.now sorts.new.counts.sorts sorts.new.index.now }
{
    match bound(sorts, up, lhs, rhs).unwrap_or(None) {
        Some(id) => put_text(&sorts.sorts(), id, out),
        None => out.put_text(b"none"),
    }
}

// What a pair prints whose two sorts are stored.
fn put_answer(sorts: &mut SortInterner, lhs: SortId, rhs: SortId, out: &mut Out)
    requires read { BothRead sorts.old.words.now sorts.old.counts.sorts sorts.old.counts.entries lhs.0 rhs.0 }
    requires indexed { Indexed sorts.old.words.now sorts.old.counts.sorts sorts.old.index.now }
    ensures { out.new
        ≡ then_put out.old
        (answer (tree_at sorts.old.words.now sorts.old.counts.sorts lhs.0)
        (tree_at sorts.old.words.now sorts.old.counts.sorts rhs.0)) }
{
    out.put_byte(sign(partial_cmp(&sorts.sorts(), lhs, rhs)));
    out.put_text(b", ");
    put_bound(sorts, true, lhs, rhs, out);
    out.put_text(b", ");
    put_bound(sorts, false, lhs, rhs, out);
    out.put_text(b", ");
    let grown = sorts.sorts();
    put_steps(widening_distance(&grown, lhs, rhs), out);
    out.put_text(b", ");
    out.put_text(yes_or_no(is_materializable(&grown, lhs, rhs)));
}

// What a bad line prints: its code, and after 20 a colon and the unread end.
#[tactic(auto, using(text_out::proofs::Outs::put_parts))]
fn put_unread(why: Unread, line: &[u8], out: &mut Out)
    ensures { out.new ≡ then_put out.old (wrong_text line.now why) }
{
    match why {
        Unread::Refused(refusal) => out.put_number(refusal.code()),
        Unread::NotASort(at) => {
            out.put_text(b"20:");
            out.put_text(unread(line, at));
        }
        Unread::NoRoom => out.put_text(b"15"),
    }
}

// 19: that a line is not too long.
fn test_length(line: &[u8]) -> Result<(), Refusal>
    ensures { result ≡ first_failing (length_check line.now ∷ []) }
{
    if MAX_LINE < line.len() {
        return Err(Refusal::LongLine);
    }
    Ok(())
}

// The sort of a line, stored in a storage that begins with the fixed six; or why there is none.
fn sort_of(sorts: &mut SortInterner, line: &[u8]) -> Result<SortId, Unread>
    requires begun { Begun sorts.old.words.now sorts.old.counts.sorts sorts.old.counts.entries max_line }
    requires indexed { Indexed sorts.old.words.now sorts.old.counts.sorts sorts.old.index.now }
    ensures left { LineLeft sorts.old.words.now sorts.old.counts.sorts sorts.old.counts.entries line.now
        sorts.new.words.now sorts.new.counts.sorts sorts.new.counts.entries result }
    ensures indexed { OnOk result (Indexed sorts.new.words.now sorts.new.counts.sorts sorts.new.index.now) }
{
    test_length(line)?;
    read_line(sorts, line)
}

// The sort of a line, likewise. Of a line that is none, what it prints is put.
fn sort_or_put(sorts: &mut SortInterner, line: &[u8], out: &mut Out) -> Option<SortId>
    requires begun { Begun sorts.old.words.now sorts.old.counts.sorts sorts.old.counts.entries max_line }
    requires indexed { Indexed sorts.old.words.now sorts.old.counts.sorts sorts.old.index.now }
    ensures left { SortOrPut sorts.old.words.now sorts.old.counts.sorts sorts.old.counts.entries line.now out.old
        sorts.new.words.now sorts.new.counts.sorts sorts.new.counts.entries out.new result }
    ensures indexed { OnSome result (Indexed sorts.new.words.now sorts.new.counts.sorts sorts.new.index.now) }
{
    match sort_of(sorts, line) {
        Ok(id) => Some(id),
        Err(why) => {
            put_unread(why, line, out);
            None
        }
    }
}

// What a pair prints before its LF, its sorts in a storage of its own, found by an index of its own; as far as there is
// room. For a caller that ends the line itself, as is put_single.
pub fn put_pair(first: &[u8], second: &[u8], out: &mut Out)
    ensures { out.new ≡ then_put out.old (pair_of first.now second.now) }
{
    let mut words = [0u16; SORT_WORDS];
    put_fixed_six(&mut words, 0);
    let mut index = [0u16; SLOTS];
    fill_index(&words, &mut index, FIXED_SORTS);
    let mut sorts = SortInterner {
        words: &mut words,
        index: &mut index,
        counts: Counts {
            sorts: FIXED_SORTS,
            entries: 0,
        },
    };
    let Some(lhs) = sort_or_put(&mut sorts, first, out) else {
        return;
    };
    let Some(rhs) = sort_or_put(&mut sorts, second, out) else {
        return;
    };
    put_answer(&mut sorts, lhs, rhs, out);
}

// Whether a line is a sort, or why not. Nothing is stored.
fn test_line(line: &[u8]) -> Result<(), Unread>
    ensures { LineTested line.now (line_of line.now) result }
{
    test_length(line)?;
    let mut steps = [0u8; MAX_LINE];
    recognise(line, &mut steps)?;
    Ok(())
}

// What a line alone prints before its LF: 21, or what is wrong with the line; as far as there is room.
pub fn put_single(line: &[u8], out: &mut Out)
    ensures { out.new ≡ then_put out.old (single_of (line_of line.now)) }
{
    match test_line(line) {
        Ok(()) => out.put_text(b"21"),
        Err(why) => put_unread(why, line, out),
    }
}

// The line of output, with its LF, as far as there is room.
pub fn put_line(lines: Gathered, out: &mut Out)
    ensures { out.new ≡ then_put out.old (printed lines.entry) }
{
    match lines {
        Gathered::Pair(first, second) => put_pair(first, second, out),
        Gathered::Alone(line) => put_single(line, out),
    }
    out.put_byte(b'\n');
}

// The line of output at the front of a buffer that has room for every line of output, and its length.
fn output(lines: Gathered, out: &mut [u8]) -> Result<usize, Refusal>
    ensures { write_left out.new result ≡ output_left (printed lines.entry) out.old }
{
    if out.len() < LINE_ROOM {
        return Err(Refusal::TooShort);
    }
    let mut to = Out { bytes: out, at: 0 };
    put_line(lines, &mut to);
    Ok(to.at)
}

// The line of output of a pair, with its LF, at the front of the buffer.
// Ruled out: the join where the meet belongs; an unread end that starts a token late.
pub fn pair(first: &[u8], second: &[u8], out: &mut [u8]) -> Result<usize, Refusal>
    ensures { write_left out.new result ≡ pair_left first.now second.now out.old }
{
    output(Gathered::Pair(first, second), out)
}

// The line of output of a line alone at the end of the input, likewise.
// Ruled out: 21 for a line that is no sort; 20 for one that is.
pub fn single(line: &[u8], out: &mut [u8]) -> Result<usize, Refusal>
    ensures { write_left out.new result ≡ single_left line.now out.old }
{
    output(Gathered::Alone(line), out)
}

// Room enough for every line of output with its LF.
pub const LINE_ROOM: usize = 816;
