// The list program, line by line: what a line of its input makes of the list that is being read, and what is printed
// for it.
#![tactic(auto)]

ghost use Rattle.std.specs.Prelude.{◌≡◌};
ghost use Rattle.text_out.specs.Outs.{then_put};
ghost use Rattle.list_reader.specs.Taking.{stage_is};
ghost use Rattle.list_memory.specs.declared.Stage.{Stage};
ghost use Rattle.list_lines.specs.Lines.{unasked_text, line_left, heard_line};

use list_answers::answer;
use list_memory::{Heard, Stage};
use list_messages::put_bad;
use list_reader::List;
use text_out::Out;

// Whether a list is read, and nothing is asked about it so far.
fn is_unasked(list: &List) -> bool
    ensures { result ≡ stage_is list.now.words Stage.Reading }
{
    list.stage_is(Stage::Reading)
}

// What is said of a list that ended, where it ended before any question.
#[tactic(auto, using(text_out::proofs::Outs::put_parts), unfolding(crate::specs::Lines::unasked_text))]
fn put_unasked(unasked: bool, out: &mut Out<'_>)
    ensures { out.new ≡ then_put out.old (unasked_text unasked) }
{
    if unasked {
        out.put_text(b"nothing is asked about this list\n");
    }
}

// A line of the input, without its LF, as far as it is held (HELD_LINE). Its output is put into the buffer, as far as
// there is room. The answer is whether the line's number is to stand before it.
pub fn hear(list: &mut List, line: &[u8], out: &mut Out<'_>) -> bool
    ensures { line_left list.new.words out.new result ≡ heard_line list.old.words line.now out.old }
{
    let unasked = is_unasked(list);
    match list.take_line(line) {
        Ok(Heard::Quiet) => false,
        Ok(Heard::Begins) => {
            put_unasked(unasked, out);
            out.put_text(line);
            out.put_byte(b'\n');
            false
        }
        Ok(Heard::Asks) => {
            answer(&list.words, out);
            false
        }
        Ok(Heard::AsksOther) => {
            out.put_text(b"expected ? solve: no other question is answered here\n");
            true
        }
        Err(form) => {
            put_bad(form, out);
            true
        }
    }
}

// The end of the input.
pub fn finish(list: &List, out: &mut Out<'_>)
    ensures { out.new ≡ then_put out.old (unasked_text (stage_is list.now.words Stage.Reading)) }
{
    put_unasked(is_unasked(list), out);
}

// Room for whatever is printed for one line (`printed_fits`).
pub const PRINTED_ROOM: usize = 393216;

// So many bytes are looked at of a line: one more than a line may have, which shows that it is too long.
pub const HELD_LINE: usize = 201;
