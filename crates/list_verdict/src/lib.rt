// The text of a verdict of the solver: the line of its code; under a typing a line for each expression, the measure and
// the choices; and a line for each sort that was made. Text goes into the lent buffer as far as it has room: no length
// has to be known before.
#![tactic(auto, using(text_out::proofs::Outs::put_parts))]

ghost use Rattle.std.specs.Prelude.{◌≡◌, ◌-◌};
ghost use Rattle.resolved_sort.specs.Entries.{tree_at};
ghost use Rattle.inference.specs.SolveEntry.{code_solved};
ghost use Rattle.text_out.specs.Quoted.{byte_of};
ghost use Rattle.text_out.specs.Outs.{then_put};
ghost use Rattle.list_verdict.specs.Words.{message};
ghost use Rattle.list_verdict.specs.Text.{name, sort_name, short, sort_text, target_text, expr_line, separator};
ghost use Rattle.list_verdict.specs.Text.{component, choice_text, measure_line, choices_line, verdict_line};
ghost use Rattle.list_verdict.specs.Text.{new_line, new_lines, typing_text, rows_text, argument_text};
ghost use Rattle.list_verdict.specs.Inner.Room.{SizesOf};
ghost use Rattle.list_verdict.specs.Inner.Row.{row_text};

use inference::{CHOICE_WORDS, ExprId, NameKind, TYPING_WORDS, Verdict};
use resolved_sort::{ENTRIES_AT, MAX_SORTS, Refusal, ResolvedSort, Run, SortId};
use sort_interner::{Sorts, get};
use sort_text::{MAX_LINE, op_word, sort_word};
use sort_writer::{fill_sizes, put_text, size_at};
use text_out::Out;
use words::word;

// What a typing hands out: the rows of its expressions, the components of its measure, and the chosen overloads.
// kept: counts beside slices, since a count is a word of the call, and what is lent may be shorter.
// kept: apart from the Out in each function below, as the sorts are: it is read, and the Out is where the text is put.
#[derive(Clone, Copy)]
pub struct Typing<'a> {
    pub rows: &'a [u16],
    pub exprs: u16,
    pub measure: &'a [u16],
    pub components: u16,
    pub choices: &'a [u16],
    pub chosen: u16,
}

// Checked sorts, and the sizes of their texts.
#[derive(Clone, Copy)]
struct SortTexts<'a> {
    sorts: Sorts<'a>,
    sizes: &'a [usize],
    ghost sized: { SizesOf sorts.words.now sorts.counts sizes.now },
}

// What a code says.
// kept: by number, and no Refusal, since the line of any number may be asked for.
#[tactic(auto, using(crate::proofs::Ways::no_message), unfolding(crate::specs::Words::message))]
fn message(code: u16) -> &'static [u8]
    ensures { result.now ≡ message code }
{
    match code {
        0 => b"a typing",
        1 => b"a list is above its ceiling or longer than what is lent for it",
        2 => b"the first six sorts are not unit, Bool, Pos, Nat, Int, Real",
        3 =>
            b"a sort has an unknown kind, above 16 arguments, a run off its list or a part not below it",
        4 => b"two sorts are equal",
        5 =>
            b"a node has an unknown kind, above 16 arguments, a run off its list, or a part or variable that is \
            not there",
        6 => b"a binding names neither a sort nor a node",
        7 => b"a variable reaches itself",
        8 => b"a place of an expression, or a base name, names nothing",
        9 => b"a constraint has an unknown kind, a run off its list, or names what is not there",
        10 => b"two disjunctions, or two base names, are for one expression",
        11 => b"a join has no sources, or there are more than 256 components",
        12 => b"the default sort is not in the list",
        14 => b"an output, the scratch, the index, or the storage of sorts or nodes is too short",
        15 => b"the search has no room for a new sort",
        16 => b"the search has no room for a new node",
        17 => b"no typing found",
        18 => b"ambiguous: several leaves have the least measure",
        _ => b"",
    }
}

// The line of a code.
#[tactic(auto, using(text_out::proofs::Outs::put_parts), unfolding(crate::specs::Text::verdict_line))]
pub fn put_verdict(code: u16, out: &mut Out<'_>)
    ensures { out.new ≡ then_put out.old (verdict_line code) }
{
    out.put_number(code);
    out.put_byte(b' ');
    out.put_text(message(code));
    out.put_byte(b'\n');
}

// The number of an answer in document 01.
#[tactic(auto, unfolding(inference::specs::SolveEntry::code_solved))]
fn code(answer: Result<Verdict, Refusal>) -> u16
    ensures { result ≡ code_solved answer }
{
    match answer {
        Ok(verdict) => verdict.code(),
        Err(refusal) => refusal.code(),
    }
}

// The line of an answer.
pub fn put_answer(answer: Result<Verdict, Refusal>, out: &mut Out<'_>)
    ensures { out.new ≡ then_put out.old (verdict_line (code_solved answer)) }
{
    put_verdict(code(answer), out);
}

// A sort by its number, and an expression: a letter and the number.
#[tactic(auto, using(text_out::proofs::Outs::put_parts), unfolding(crate::specs::Text::name))]
fn put_number_of(letter: u8, number: u16, out: &mut Out<'_>)
    ensures { out.new ≡ then_put out.old (name letter number) }
{
    out.put_byte(letter);
    out.put_number(number);
}

fn put_expr_name(expr: ExprId, out: &mut Out<'_>)
    ensures { out.new ≡ then_put out.old (name (byte_of "e") expr.0) }
{
    put_number_of(b'e', expr.0, out);
}

// A sort as the text format names it: one of the fixed six by its word.
// kept: by number, since a list is not looked at: whatever its rows are, these numbers have these names.
#[tactic(auto, using(crate::proofs::Ways::plain_name), unfolding(crate::specs::Text::sort_name, crate::specs::Words::kind_word))]
fn put_sort_name(id: SortId, out: &mut Out<'_>)
    ensures { out.new ≡ then_put out.old (sort_name id.0) }
{
    match id.0 {
        0 => out.put_text(b"unit"),
        1 => out.put_text(b"Bool"),
        2 => out.put_text(b"Pos"),
        3 => out.put_text(b"Nat"),
        4 => out.put_text(b"Int"),
        5 => out.put_text(b"Real"),
        _ => put_number_of(b's', id.0, out),
    }
}

// A comma and a space before all but the first.
#[tactic(auto, using(text_out::proofs::Outs::put_parts), unfolding(crate::specs::Text::separator))]
fn put_comma(i: u16, out: &mut Out<'_>)
    ensures { out.new ≡ then_put out.old (separator i) }
{
    if 0 < i {
        out.put_text(b", ");
    }
}

// A component of a measure.
#[tactic(auto, using(text_out::proofs::Outs::put_parts), unfolding(crate::specs::Text::component))]
fn put_component(typing: &Typing<'_>, i: u16, out: &mut Out<'_>)
    ensures { out.new ≡ then_put out.old (component typing.now.measure.now i) }
{
    put_comma(i, out);
    out.put_number(word(typing.measure, i as usize));
}

// The line of a measure.
#[tactic(auto, using(text_out::proofs::Outs::put_parts), unfolding(crate::specs::Text::measure_line, crate::specs::Text::rows_text))]
fn put_measure(typing: &Typing<'_>, out: &mut Out<'_>)
    ensures { out.new ≡ then_put out.old (measure_line typing.now.measure.now typing.now.components) }
{
    out.put_text(b"measure [");
    for i in 0..typing.components {
        put_component(typing, i, out);
    }
    out.put_text(b"]\n");
}

// A chosen overload: its expression and its position.
#[tactic(auto, using(text_out::proofs::Outs::put_parts), unfolding(crate::specs::Text::choice_text))]
fn put_choice(typing: &Typing<'_>, i: u16, out: &mut Out<'_>)
    ensures { out.new ≡ then_put out.old (choice_text typing.now.choices.now i) }
{
    let row = CHOICE_WORDS * (i as usize);
    put_comma(i, out);
    put_expr_name(ExprId(word(typing.choices, row)), out);
    out.put_byte(b' ');
    out.put_number(word(typing.choices, row + 1));
}

// The line of the choices, in the order handed out.
fn put_choices(typing: &Typing<'_>, out: &mut Out<'_>)
    ensures { out.new ≡ then_put out.old (choices_line typing.now.choices.now typing.now.chosen) }
{
    out.put_text(b"choices ");
    if typing.chosen == 0 {
        out.put_text(b"none");
    }
    for i in 0..typing.chosen {
        put_choice(typing, i, out);
    }
    out.put_byte(b'\n');
}

// The arguments of a function, a space before each.
#[tactic(auto, using(text_out::proofs::Outs::put_parts), unfolding(crate::specs::Text::argument_text, crate::specs::Text::rows_text))]
fn put_arguments(sorts: &[u16], domain: Run, out: &mut Out<'_>)
    ensures { out.new ≡ then_put out.old
        (rows_text (argument_text sorts.now) domain.count domain.start) }
{
    let start = domain.start as usize;
    for i in start..start + domain.count as usize {
        out.put_byte(b' ');
        put_sort_name(SortId(word(sorts, ENTRIES_AT + i)), out);
    }
}

// A row in the words of a `sort` line.
#[tactic(auto, using(text_out::proofs::Outs::put_parts), unfolding(crate::specs::Inner::Row::row_text))]
fn put_row(sorts: &[u16], row: ResolvedSort, out: &mut Out<'_>)
    ensures { out.new ≡ then_put out.old (row_text sorts.now row) }
{
    match row {
        ResolvedSort::Unit => out.put_text(b"unit"),
        ResolvedSort::Primitive(sort) => out.put_text(sort_word(sort)),
        ResolvedSort::Container { op, subsort } => {
            out.put_text(op_word(op));
            out.put_byte(b' ');
            put_sort_name(subsort, out);
        }
        ResolvedSort::Function { domain, range } => {
            out.put_text(b"fn");
            put_arguments(sorts, domain, out);
            out.put_text(b" -> ");
            put_sort_name(range, out);
        }
        ResolvedSort::Def(number) => {
            out.put_text(b"Def ");
            out.put_number(number);
        }
        ResolvedSort::TypeVar(number) => {
            out.put_text(b"TypeVar ");
            out.put_number(number);
        }
    }
}

// The line of a sort that was made.
#[tactic(auto, using(text_out::proofs::Outs::put_parts, crate::proofs::Rows::row_is), unfolding(crate::specs::Text::new_line))]
fn put_new(sorts: &[u16], id: SortId, out: &mut Out<'_>)
    ensures { out.new ≡ then_put out.old (new_line sorts.now id.0) }
{
    out.put_text(b"new ");
    put_number_of(b's', id.0, out);
    out.put_byte(b' ');
    put_row(sorts, get(sorts, id), out);
    out.put_byte(b'\n');
}

// The lines of the sorts from the given ones up to those kept.
#[tactic(auto, using(text_out::proofs::Outs::put_parts), unfolding(crate::specs::Text::new_lines, crate::specs::Text::rows_text))]
pub fn put_new_sorts(sorts: &[u16], given: u16, count: u16, out: &mut Out<'_>)
    ensures { out.new ≡ then_put out.old (new_lines sorts.now given count) }
{
    for i in given..count {
        put_new(sorts, SortId(i), out);
    }
}

impl SortTexts<'_> {
    // Whether a sort has a text as long as a line may be.
    fn is_short(&self, id: SortId) -> bool
        ensures { result ≡ short (tree_at self.now.sorts.words.now self.now.sorts.counts.sorts id.0) }
    {
        let size = size_at(self.sizes, id);
        0 < size && size <= MAX_LINE
    }

    // A sort in mCRL2 spelling; its number where it has no text, or one above MAX_LINE bytes.
    #[tactic(auto, unfolding(crate::specs::Text::sort_text))]
    fn put_sort_text(&self, id: SortId, out: &mut Out<'_>)
        ensures { out.new ≡ then_put out.old (sort_text self.now.sorts.words.now self.now.sorts.counts.sorts id.0) }
    {
        if self.is_short(id) {
            put_text(&self.sorts, id, out);
        } else {
            put_number_of(b's', id.0, out);
        }
    }

    // What a name resolved to.
    #[tactic(auto, using(text_out::proofs::Outs::put_parts), unfolding(crate::specs::Text::target_text))]
    fn put_target(&self, kind: u16, id: SortId, out: &mut Out<'_>)
        ensures { out.new ≡ then_put out.old
            (target_text self.now.sorts.words.now self.now.sorts.counts.sorts kind id.0) }
    {
        match NameKind::try_from(kind) {
            Ok(NameKind::Variable) => out.put_text(b", variable"),
            Ok(NameKind::Op) => {
                out.put_text(b", op ");
                self.put_sort_text(id, out);
            }
            Ok(NameKind::Builtin) => out.put_text(b", builtin"),
            Err(_) => {}
        }
    }

    // The line of an expression: its sort, and what its name resolved to.
    #[tactic(auto, using(text_out::proofs::Outs::put_parts), unfolding(crate::specs::Text::expr_line))]
    fn put_expr(&self, typing: &Typing<'_>, expr: ExprId, out: &mut Out<'_>)
        ensures { out.new ≡ then_put out.old
            (expr_line self.now.sorts.words.now self.now.sorts.counts.sorts typing.now.rows.now expr.0) }
    {
        let row = TYPING_WORDS * (expr.0 as usize);
        put_expr_name(expr, out);
        out.put_text(b": ");
        self.put_sort_text(SortId(word(typing.rows, row)), out);
        self.put_target(
            word(typing.rows, row + 1),
            SortId(word(typing.rows, row + 2)),
            out,
        );
        out.put_byte(b'\n');
    }
}

// The lines of a typing. The sizes of all sorts are found once.
#[tactic(auto, using(text_out::proofs::Outs::put_parts), unfolding(crate::specs::Text::typing_text, crate::specs::Text::rows_text))]
pub fn put_typing(sorts: &Sorts<'_>, typing: &Typing<'_>, out: &mut Out<'_>)
    ensures { out.new ≡ then_put out.old
        (typing_text sorts.now.words.now sorts.now.counts.sorts typing.now.rows.now typing.now.measure.now
        typing.now.choices.now typing.now.exprs typing.now.components typing.now.chosen) }
{
    let mut sizes = [0usize; MAX_SORTS];
    fill_sizes(sorts.words, sorts.counts.sorts as usize, &mut sizes);
    let texts = SortTexts {
        sorts: *sorts,
        sizes: &sizes,
    };
    for i in 0..typing.exprs {
        texts.put_expr(typing, ExprId(i), out);
    }
    put_measure(typing, out);
    put_choices(typing, out);
}
