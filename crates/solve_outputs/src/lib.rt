// The solver before and after its search: what the search begins with; what it hands out, from the incumbent in the
// scratch; what it clears, answers and leaves.
#![tactic(auto)]

ghost use Rattle.std.specs.Prelude.{◌≡◌, [], ◌+◌, ◌*◌, ◌≤◌, length, drop, true, Ok, Err, IfErr};
ghost use Rattle.resolved_sort.specs.declared.Refusal.{Refusal};
ghost use Rattle.std.proofs.Math.Option.{some};
ghost use Rattle.std.proofs.lemmas.List.Edits.{sets};
ghost use Rattle.unification.specs.Nodes.{max_nodes, max_node_entries, full_nodes};
ghost use Rattle.inference.specs.Constraints.{max_constraints, max_components, name_words, overload_at};
ghost use Rattle.inference.specs.Constraints.{rows_from};
ghost use Rattle.inference.specs.Names.{overload_in, name_kind, name_sort};
ghost use Rattle.inference.specs.SolveChecks.{typing_words, choice_words, disjunction_for, no_two};
ghost use Rattle.inference.specs.Rising.{rising};
ghost use Rattle.inference.specs.SolveEntry.{nodes_given_back, typing_rows, choice_rows, written_over};
ghost use Rattle.search_state.specs.Inner.Memory.{overloads_at, problem_in, rest_from, chosen_exprs};
ghost use Rattle.search_state.specs.Inner.Memory.{best_sorts_at, best_measure_at, choices_kept};
ghost use Rattle.search_state.specs.Inner.Searching.{Sized};
ghost use Rattle.search_state.specs.Inner.Solving.{OnlySorts, SameProblem};
ghost use Rattle.words.specs.Words.{part};
ghost use Rattle.solve_outputs.specs.Inner.Written.{walked, slots_stored, choice_by, named_rows, no_name};
ghost use Rattle.solve_outputs.specs.Inner.Written.{named, base_named};
ghost use Rattle.solve_outputs.specs.Inner.Written.{name_by_of, chosen_named};
ghost use Rattle.inference.specs.declared.Verdict.TheVariants.{Typing};
ghost use Rattle.solve_checks.specs.Inner.Calls.{call_for};
ghost use Rattle.solve_checks.specs.Call.{lengths_of};
ghost use Rattle.solve_outputs.specs.Inner.Begin.{CountsFit, RowsFit, sizes_of, nothing_taken};
ghost use Rattle.solve_outputs.specs.Packed.{pack_solved, CountsWithin, VerdictWithin, SolvedWithin};
ghost use Rattle.solve_outputs.specs.Inner.Counts.{pack_counts};
ghost use Rattle.solve_outputs.specs.Inner.Finish.{solve_left_by, settled, SortsReturnable, NodesReturnable};
ghost use Rattle.solve_outputs.specs.Inner.Handing.{names_read, told_in, left_in, handing, judging, Tidied};
ghost use Rattle.solve_outputs.specs.Inner.Handing.{told_as, settling_as, CanHandOut};
ghost use Rattle.solve_outputs.specs.Handout.{SameHandout};

use entry_answers::pack;
use inference::{
    CHOICE_WORDS, Constraint, ExprId, MAX_EXPRS, NAME_WORDS, NameKind, NameTarget, OVERLOAD_WORDS,
    Outputs, TYPING_WORDS, Verdict,
};
use problem_words::{constraint_at, name_target};
use resolved_sort::{Counts, Refusal, Run, SortId};
use search_state::{
    BEST_CHOICES_AT, BEST_MEASURE_AT, BEST_SORTS_AT, Branch, OVERLOADS_AT, Search, Sizes,
};
use solve_checks::{Given, Problem, components, disjunction_count};
use sort_interner::{clear_index, clear_past, give_back};
use unification::{Lengths, NODE_ENTRIES_AT};
use words::{BIT_8, BIT_24, BIT_40, BIT_52, put, word};

// What a call hands out: the rows of its expressions, the measure, and the rows of its choices.
#[derive(Drop)]
pub struct Handout<'a> {
    pub typing: &'a mut [u16],
    pub measure: &'a mut [u16],
    pub choices: &'a mut [u16],
}

// The base names of a call, which are all in the words lent for them.
// kept: a count beside lent words, since what is lent may be longer than what counts.
#[derive(Clone, Copy)]
pub struct BaseNames<'a> {
    pub words: &'a [u16],
    pub count: usize,
    ghost whole: { name_words * count ≤ length words.now },
}

// Zero past the nodes and argument entries that the call began with, and these as they are.
#[tactic(auto, unfolding(inference::specs::SolveEntry::nodes_given_back))]
fn clear_nodes(nodes: &mut [u16], node_count: u16, entry_count: u16)
    requires { (node_count ≤ max_nodes) × (entry_count ≤ max_node_entries) × (full_nodes ≤ length nodes.old) }
    ensures { nodes.new ≡ nodes_given_back node_count entry_count nodes.old }
{
    clear_past(
        nodes,
        node_count as usize,
        NODE_ENTRIES_AT,
        entry_count as usize,
    );
}

// The measure handed out.
// kept: word by word and no copy, so that an archive for C needs no memmove from outside.
fn write_measure(measure: &mut [u16], search: &Search<'_>)
    requires { (search.now.sizes.components ≤ max_components)
        × (search.now.sizes.components ≤ length measure.old) }
    ensures { measure.new
        ≡ written_over (part best_measure_at search.now.sizes.components search.now.scratch.now)
        measure.old }
{
    for i in 0..search.sizes.components {
        let component = word(search.scratch, BEST_MEASURE_AT + i as usize);
        put(measure, i as usize, component);
    }
}

// Of a disjunction the slot of its choice, which comes after k others. How many there are then.
#[tactic(auto, unfolding(crate::specs::Inner::Written::slots_stored))]
fn store_slot(slots: &mut [u16], says: Constraint, k: u16) -> u16
    requires { k ≤ max_constraints }
    ensures { walked slots.new result
        ≡ walked (slots_stored (disjunction_for says []) k slots.old) (k + length (disjunction_for says [])) }
{
    match says {
        Constraint::Disjunction { expr, .. } => {
            put(slots, expr.0 as usize, k + 1);
            k + 1
        }
        _ => k,
    }
}

// At each expression the slot of its choice: 1 and how many choices come before it, in the order of the constraints, in
// which they are kept. At an expression without a choice stays what stood there.
fn store_slots(slots: &mut [u16], search: &Search<'_>)
    requires { Sized (problem_in search.now.lists.now search.now.sizes) search.now.sizes }
    ensures { slots.new ≡ slots_stored (chosen_exprs search.now.lists.now search.now.sizes) 0 slots.old }
{
    let mut k: u16 = 0;
    for i in 0..search.sizes.constraints {
        k = store_slot(slots, constraint_at(search.lists, i), k);
    }
}

// Of an expression the row of the choice in its slot, after k rows; none where the slot is 0. How many there are then.
#[tactic(auto, unfolding(crate::specs::Inner::Written::choice_by))]
fn write_choice(choices: &mut [u16], scratch: &[u16], expr: ExprId, slot: u16, k: u16) -> u16
    requires { k ≤ max_constraints }
    ensures { walked choices.new result ≡ choice_by scratch.now expr.0 slot choices.old k }
{
    if slot == 0 {
        return k;
    }
    let before = slot - 1;
    let row = CHOICE_WORDS * (k as usize);
    put(choices, row, expr.0);
    put(
        choices,
        row + 1,
        word(scratch, BEST_CHOICES_AT + (before as usize)),
    );
    k + 1
}

// The choices handed out, by rising expression number.
fn write_choices(choices: &mut [u16], search: &Search<'_>)
    requires { Sized (problem_in search.now.lists.now search.now.sizes) search.now.sizes
        × (no_two (chosen_exprs search.now.lists.now search.now.sizes) ≡ true)
        × (choice_words * search.now.sizes.disjunctions ≤ length choices.old) }
    ensures { choices.new
        ≡ written_over (choice_rows (rising (problem_in search.now.lists.now search.now.sizes)
        (choices_kept search.now.lists.now search.now.sizes search.now.scratch.now)))
        choices.old }
{
    let mut slots = [0u16; MAX_EXPRS];
    store_slots(&mut slots, search);
    let mut k: u16 = 0;
    for x in 0..search.sizes.exprs {
        let slot = word(&slots, x as usize);
        k = write_choice(choices, search.scratch, ExprId(x), slot, k);
    }
}

// The kind and the sort of a name, as they are handed out. Only an operation has a sort.
fn name_words(name: NameTarget) -> (u16, u16)
    ensures { result ≡ (name_kind (some name), name_sort (some name)) }
{
    match name {
        NameTarget::Variable => (NameKind::Variable as u16, 0),
        NameTarget::Op(sort) => (NameKind::Op as u16, sort.0),
        NameTarget::Builtin => (NameKind::Builtin as u16, 0),
    }
}

// The name of an expression, where it is one of those that have a row.
fn put_name(typing: &mut [u16], exprs: u16, expr: ExprId, name: NameTarget)
    ensures { typing.new ≡ named exprs typing.old expr.0 name }
{
    if expr.0 < exprs {
        let row = TYPING_WORDS * (expr.0 as usize);
        let (kind, sort) = name_words(name);
        put(typing, row + 1, kind);
        put(typing, row + 2, sort);
    }
}

// The sorts of the expressions, each with no name yet.
fn write_sorts(typing: &mut [u16], scratch: &[u16], exprs: u16)
    requires { best_sorts_at + exprs ≤ length scratch.now }
    ensures { typing.new
        ≡ sets typing.old 0 (named_rows no_name 0 (part best_sorts_at exprs scratch.now)) }
{
    for x in 0..exprs {
        let row = TYPING_WORDS * (x as usize);
        put(typing, row, word(scratch, BEST_SORTS_AT + (x as usize)));
        put(typing, row + 1, 0);
        put(typing, row + 2, 0);
    }
}

// The base names, from the last to the first.
fn write_base_names(typing: &mut [u16], names: &BaseNames<'_>, exprs: u16)
    ensures { typing.new ≡ base_named exprs (names_read names.now.words.now names.now.count) typing.old }
{
    for i in (0..names.count).rev() {
        let row = NAME_WORDS * i;
        let expr = ExprId(word(names.words, row));
        let kind = word(names.words, row + 1);
        let sort = word(names.words, row + 2);
        put_name(typing, exprs, expr, name_target(kind, sort));
    }
}

// What the i-th of a run of overloads stands for. Past the overloads that is a variable, never what lies there.
fn chosen_target(lists: &[u16], overloads: u16, run: Run, i: u16) -> NameTarget
    ensures { result
        ≡ (overload_in (rows_from (overload_at (drop overloads_at lists.now)) 0 overloads) run i).target }
{
    let at = (run.start as usize) + (i as usize);
    if (overloads as usize) <= at {
        return NameTarget::Variable;
    }
    let row = OVERLOADS_AT + OVERLOAD_WORDS * at;
    let kind = word(lists, row);
    let sort = word(lists, row + 1);
    name_target(kind, sort)
}

// Of a disjunction the name that its choice gives, which is the last of k. How many come before it.
#[tactic(auto, unfolding(crate::specs::Inner::Written::name_by_of))]
fn name_choice(typing: &mut [u16], search: &Search<'_>, says: Constraint, k: u16) -> u16
    requires { (length (disjunction_for says []) ≤ k) × (k ≤ max_constraints) }
    ensures { walked typing.new result
        ≡ name_by_of search.now.sizes.exprs
        (rows_from (overload_at (drop overloads_at search.now.lists.now)) 0 search.now.sizes.overloads)
        search.now.scratch.now says typing.old k }
{
    match says {
        Constraint::Disjunction {
            expr,
            disjuncts,
            ..
        } => {
            let before = k - 1;
            let i = word(search.scratch, BEST_CHOICES_AT + (before as usize));
            let name = chosen_target(search.lists, search.sizes.overloads, disjuncts, i);
            put_name(typing, search.sizes.exprs, expr, name);
            before
        }
        _ => k,
    }
}

// The names that the choices give, from the last to the first.
fn write_chosen_names(typing: &mut [u16], search: &Search<'_>)
    requires { Sized (problem_in search.now.lists.now search.now.sizes) search.now.sizes }
    ensures { typing.new
        ≡ chosen_named search.now.sizes.exprs
        (rows_from (overload_at (drop overloads_at search.now.lists.now)) 0 search.now.sizes.overloads)
        search.now.scratch.now (rest_from search.now.lists.now search.now.sizes 0) 0 typing.old }
{
    let mut k = search.sizes.disjunctions;
    for i in (0..search.sizes.constraints).rev() {
        k = name_choice(typing, search, constraint_at(search.lists, i), k);
    }
}

// The typing handed out: of each expression its sort, and its name, by a choice rather than a base name.
fn write_typing(typing: &mut [u16], search: &Search<'_>, names: &BaseNames<'_>)
    requires { Sized (problem_in search.now.lists.now search.now.sizes) search.now.sizes
        × (typing_words * search.now.sizes.exprs ≤ length typing.old) }
    ensures { typing.new
        ≡ written_over (typing_rows (problem_in search.now.lists.now search.now.sizes) (names_read names.now.words.now names.now.count)
        (choices_kept search.now.lists.now search.now.sizes search.now.scratch.now)
        0 (part best_sorts_at search.now.sizes.exprs search.now.scratch.now))
        typing.old }
{
    write_sorts(typing, search.scratch, search.sizes.exprs);
    write_base_names(typing, names, search.sizes.exprs);
    write_chosen_names(typing, search);
}

// How much of the lent lists is in use at first.
pub fn lengths_of(given: Given) -> Lengths
    requires { CountsFit (lengths_of given) }
    ensures { result ≡ lengths_of given }
{
    Lengths {
        sorts: given.sorts as u16,
        entries: given.entries as u16,
        nodes: given.nodes as u16,
        arguments: given.arguments as u16,
        variables: given.variables as u16,
    }
}

// How many rows the lists of the problem have, and how many components and choices a leaf has.
pub fn sizes_of(problem: &Problem<'_>) -> Sizes
    requires { RowsFit (call_for problem.now) }
    ensures { result ≡ sizes_of (call_for problem.now) }
{
    let given = problem.given;
    let count = given.constraints as u16;
    let parts = components(problem.constraints, count);
    let choices = disjunction_count(problem.constraints, count);
    Sizes {
        exprs: given.exprs as u16,
        constraints: count,
        overloads: given.overloads as u16,
        sources: given.sources as u16,
        components: parts as u16,
        disjunctions: choices as u16,
        default: given.default,
    }
}

// A branch that has taken on nothing.
pub fn nothing_taken() -> Branch
    ensures { result ≡ nothing_taken }
{
    Branch {
        trail: 0,
        measure: 0,
        choices: 0,
    }
}

// Hands the incumbent out.
// kept: handout, search and names go together through four functions, apart: two of them read the search and two change
// it, so that one struct of the three would not serve all.
fn hand_out(handout: &mut Handout<'_>, search: &Search<'_>, names: &BaseNames<'_>) -> Outputs
    requires { CanHandOut search.now handout.old }
    ensures says { told_in (Ok (Typing result)) handout.new ≡ handing search.now (names_read names.now.words.now names.now.count) handout.old }
    ensures same_reference { SameHandout handout.old handout.new }
{
    write_typing(handout.typing, search, names);
    write_measure(handout.measure, search);
    write_choices(handout.choices, search);
    Outputs {
        counts: Counts::from(search.lengths),
        components: search.sizes.components,
        choices: search.sizes.disjunctions,
    }
}

// The verdict of a search that had room: by whether there is an incumbent, and whether it is tied.
fn judge(handout: &mut Handout<'_>, search: &Search<'_>, names: &BaseNames<'_>) -> Verdict
    requires { CanHandOut search.now handout.old }
    ensures says { told_in (Ok result) handout.new ≡ judging search.now (names_read names.now.words.now names.now.count) handout.old }
    ensures same_reference { SameHandout handout.old handout.new }
{
    let counts = Counts::from(search.lengths);
    let Some(incumbent) = search.best else {
        return Verdict::NoTyping(counts);
    };
    if incumbent.tied {
        return Verdict::Ambiguous(counts);
    }
    Verdict::Typing(hand_out(handout, search, names))
}

// The answer after the search; where room ended, sorts made are given back to the counts at entry, and what ended is
// handed on, whatever it is.
fn settle<E>(
    search: &mut Search<'_>,
    handout: &mut Handout<'_>,
    names: &BaseNames<'_>,
    entry: Lengths,
    found: Result<bool, E>,
) -> Result<Verdict, E>
    requires { CanHandOut search.old handout.old × SortsReturnable search.old.sorts.now entry }
    ensures says { (told : E → Refusal) → settled search.new.sorts.now (told_in (told_as told result) handout.new)
        ≡ settling_as told search.old (names_read names.now.words.now names.now.count) handout.old entry found }
    ensures ended { IfErr found (λ e. result ≡ Err e) }
    ensures kept { OnlySorts search.old search.new }
    ensures index_stays { search.new.index ≡ search.old.index }
    ensures same_reference { SameHandout handout.old handout.new }
{
    match found {
        Ok(_) => Ok(judge(handout, search, names)),
        Err(full) => {
            give_back(search.sorts, entry.sorts as usize, entry.entries as usize);
            Err(full)
        }
    }
}

// Zero past the nodes that the call began with, in the scratch and in the index of sorts.
fn tidy(search: &mut Search<'_>, entry: Lengths)
    requires { NodesReturnable search.old.nodes.now entry }
    ensures { Tidied entry search.old search.new }
{
    clear_nodes(search.nodes, entry.nodes, entry.arguments);
    search.scratch.fill(0);
    clear_index(search.index);
}

// What the entry answers and leaves after the search, of a call that began with so much of its lists. What ended in
// the search, whatever it is, is the answer's error.
pub fn finish<E>(
    search: &mut Search<'_>,
    handout: &mut Handout<'_>,
    names: &BaseNames<'_>,
    entry: Lengths,
    found: Result<bool, E>,
) -> Result<Verdict, E>
    requires { CanHandOut search.old handout.old
        × SortsReturnable search.old.sorts.now entry
        × NodesReturnable search.old.nodes.now entry }
    ensures says { (told : E → Refusal) → left_in (told_as told result) search.new handout.new
        ≡ solve_left_by entry search.old.nodes.now search.old.binds.now search.old.scratch.now
        search.old.index.now
        (settling_as told search.old (names_read names.now.words.now names.now.count) handout.old entry found) }
    ensures ended { IfErr found (λ e. result ≡ Err e) }
    ensures same_problem { SameProblem search.old search.new }
    ensures same_handout { SameHandout handout.old handout.new }
{
    let answer = settle(search, handout, names, entry, found);
    tidy(search, entry);
    answer
}

// Sorts and entries as part of the packed answer.
fn pack_counts(counts: Counts) -> u64
    requires { CountsWithin counts }
    ensures { result ≡ pack_counts counts }
{
    (counts.sorts as u64) * BIT_8 + (counts.entries as u64) * BIT_24
}

// A verdict's number and its counts.
fn pack_verdict(verdict: Verdict) -> u64
    requires { VerdictWithin verdict }
    ensures { result ≡ pack_solved (Ok verdict) }
{
    match verdict {
        Verdict::Typing(outputs) => pack_counts(outputs.counts)
            + (outputs.components as u64) * BIT_40
            + (outputs.choices as u64) * BIT_52,
        Verdict::NoTyping(counts) | Verdict::Ambiguous(counts) => verdict.code() as u64
            + pack_counts(counts),
    }
}

// The code of document 01 and the counts of an answer as one number, for callers in other languages.
pub fn pack_solved(answer: Result<Verdict, Refusal>) -> u64
    requires { SolvedWithin answer }
    ensures { result ≡ pack_solved answer }
{
    pack(answer.map(pack_verdict))
}
