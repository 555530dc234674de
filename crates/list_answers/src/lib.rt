// The solver's answer about a list that stands in one array of words, as text. The slices that a call may change are
// copied, so that the list stays as it is.
#![tactic(auto)]

ghost use Rattle.std.specs.Prelude.{◌≡◌, ◌≤◌, length, Ok};
ghost use Rattle.inference.specs.SolveEntry.{solve_entry};
ghost use Rattle.text_out.specs.Outs.{then_put};
ghost use Rattle.list_memory.specs.Memory.{rows_at};
ghost use Rattle.list_call.specs.Lists.{call_on};
ghost use Rattle.list_answers.specs.Answer.{lines_under, told_text, answer_text};
ghost use Rattle.list_answers.specs.Inner.Answer.{Tellable, told_of};

use inference::{MAX_COMPONENTS, Verdict};
use list_call::{count_of, length_of};
use list_memory::{
    LIST_CHOICE_WORDS, LIST_CHOICES_AT, LIST_MEASURE_AT, LIST_SORTS_AT, LIST_TYPING_AT,
    LIST_TYPING_WORDS, LIST_WORDS, Slice, Table,
};
use list_solve::ask;
use list_verdict::{Typing, put_answer, put_new_sorts, put_typing};
use resolved_sort::{Refusal, SORT_WORDS};
use solve_outputs::Handout;
use sort_interner::Sorts;
use text_out::Out;
use words::copied;

// What stands under the line of a verdict: under a typing its lines, and under each the sorts made.
#[tactic(auto, using(text_out::proofs::Outs::put_parts), unfolding(crate::specs::Answer::lines_under))]
fn put_lines(
    verdict: Verdict,
    given: u16,
    exprs: u16,
    sorts: &[u16],
    handout: &Handout<'_>,
    out: &mut Out<'_>,
)
    requires { Tellable (Ok verdict) sorts.now }
    ensures { out.new
        ≡ then_put out.old
        (lines_under given exprs (Ok verdict) sorts.now handout.now.typing.now handout.now.measure.now
        handout.now.choices.now) }
{
    match verdict {
        Verdict::NoTyping(counts) => put_new_sorts(sorts, given, counts.sorts, out),
        Verdict::Ambiguous(counts) => put_new_sorts(sorts, given, counts.sorts, out),
        Verdict::Typing(made) => {
            let typing = Typing {
                rows: handout.typing,
                exprs,
                measure: handout.measure,
                components: made.components,
                choices: handout.choices,
                chosen: made.choices,
            };
            let checked = Sorts {
                words: sorts,
                counts: made.counts,
            };
            put_typing(&checked, &typing, out);
            put_new_sorts(sorts, given, made.counts.sorts, out);
        }
    }
}

// An answer of the solver as text.
#[tactic(auto, using(text_out::proofs::Outs::put_parts), unfolding(crate::specs::Answer::told_text, crate::specs::Answer::lines_under))]
fn tell(
    answer: Result<Verdict, Refusal>,
    given: u16,
    exprs: u16,
    sorts: &[u16],
    handout: &Handout<'_>,
    out: &mut Out<'_>,
)
    requires { Tellable answer sorts.now }
    ensures { out.new
        ≡ then_put out.old
        (told_text given exprs answer sorts.now handout.now.typing.now handout.now.measure.now
        handout.now.choices.now) }
{
    put_answer(answer, out);
    if let Ok(verdict) = answer {
        put_lines(verdict, given, exprs, sorts, handout, out);
    }
}

// The solver asked about a list, and its answer as text.
fn ask_and_tell(list: &[u16], sorts: &mut [u16], handout: &mut Handout<'_>, out: &mut Out<'_>)
    requires { rows_at ≤ length list.now }
    ensures { out.new
        ≡ told_of list.now out.old
        (solve_entry
        (call_on list.now sorts.old handout.old.typing.now handout.old.measure.now handout.old.choices.now)) }
{
    let answer = ask(list, sorts, handout);
    let given = count_of(list, Table::Sorts);
    let exprs = count_of(list, Table::Exprs);
    tell(answer, given, exprs, sorts, handout, out);
}

// The solver's answer about a list as text, as far as the buffer has room. Ruled out: an answer about other lengths than
// the list tells, or one that leaves out a sort that was made.
pub fn answer(list: &[u16; LIST_WORDS], out: &mut Out<'_>)
    ensures { out.new ≡ then_put out.old (answer_text list.now) }
{
    let mut sorts: [u16; SORT_WORDS] = copied(list, LIST_SORTS_AT);
    let mut typing: [u16; LIST_TYPING_WORDS] = copied(list, LIST_TYPING_AT);
    let mut measure: [u16; MAX_COMPONENTS] = copied(list, LIST_MEASURE_AT);
    let mut choices: [u16; LIST_CHOICE_WORDS] = copied(list, LIST_CHOICES_AT);
    let sorts_end = length_of(list, Slice::Sorts, SORT_WORDS, SORT_WORDS);
    let typing_end = length_of(list, Slice::Typing, LIST_TYPING_WORDS, LIST_TYPING_WORDS);
    let measure_end = length_of(list, Slice::Measure, MAX_COMPONENTS, MAX_COMPONENTS);
    let choices_end = length_of(list, Slice::Choices, LIST_CHOICE_WORDS, LIST_CHOICE_WORDS);
    let mut handout = Handout {
        typing: &mut typing[..typing_end],
        measure: &mut measure[..measure_end],
        choices: &mut choices[..choices_end],
    };
    ask_and_tell(list, &mut sorts[..sorts_end], &mut handout, out);
}
