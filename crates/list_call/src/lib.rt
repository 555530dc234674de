// A list that stands in one array of words, and the solver asked about it: counts and lent lengths as the list tells
// them.
#![tactic(auto)]

ghost use Rattle.std.specs.Prelude.{◌≡◌, ◌+◌, ◌*◌, ◌≤◌, length, get_or, cond, eqb, Some, None};
ghost use Rattle.inference.specs.SolveEntry.{solve_entry};
ghost use Rattle.list_memory.specs.Memory.{rows_at, rows_given};
ghost use Rattle.list_memory.specs.Layouts.{table_number, slice_number, layout_of};
ghost use Rattle.solve_outputs.specs.Handout.{solve_left_with, SameHandout};
ghost use Rattle.list_call.specs.Lists.{call_count, length_lent, slice_lent, given_in, call_by};

use inference::Verdict;
use list_memory::{
    COUNTS_AT, COUNTS_TOLD_AT, DEFAULT_AT, LENT_AT, LENT_TOLD_AT, Slice, Table, rows_given,
};
use resolved_sort::{Refusal, SortId};
use solve_checks::{Given, Problem};
use solve_entries::solve;
use solve_outputs::Handout;
use words::word;

// A word of the list that a line told, where the word that says so is 1.
fn told(list: &[u16], told_at: usize, at: usize) -> Option<u16>
    ensures { result ≡ cond (eqb (get_or list.now told_at 0) 1) (Some (get_or list.now at 0)) None }
{
    (word(list, told_at) == 1).then_some(word(list, at))
}

// The count of a table in the call.
#[tactic(auto, unfolding(crate::specs::Lists::call_count))]
pub fn count_of(list: &[u16], table: Table) -> u16
    ensures { result ≡ call_count list.now (table_number table) }
{
    let k = table.number();
    told(list, COUNTS_TOLD_AT + k, COUNTS_AT + k).unwrap_or(rows_given(list, table))
}

// The counts of the call, and the default sort.
pub fn given_in(list: &[u16]) -> Given
    ensures { result ≡ given_in list.now }
{
    Given {
        sorts: count_of(list, Table::Sorts) as usize,
        entries: count_of(list, Table::Entries) as usize,
        nodes: count_of(list, Table::Nodes) as usize,
        arguments: count_of(list, Table::NodeEntries) as usize,
        variables: count_of(list, Table::Vars) as usize,
        exprs: count_of(list, Table::Exprs) as usize,
        names: count_of(list, Table::Names) as usize,
        constraints: count_of(list, Table::Constraints) as usize,
        overloads: count_of(list, Table::Overloads) as usize,
        sources: count_of(list, Table::Sources) as usize,
        default: SortId(word(list, DEFAULT_AT)),
    }
}

// How many words are lent of a slice: as many as told, n where none are; its ceiling at most.
#[tactic(auto, unfolding(crate::specs::Lists::told_or, crate::specs::Lists::length_lent))]
pub fn length_of(list: &[u16], slice: Slice, n: usize, top: usize) -> usize
    ensures { (result ≡ length_lent list.now (slice_number slice) n top) × (result ≤ top) }
{
    let j = slice.number();
    told(list, LENT_TOLD_AT + j, LENT_AT + j)
        .map_or(n, usize::from)
        .min(top)
}

// A slice that a call does not change, as a part of the list: where nothing is told, as many words as the rows given of
// its table have.
fn lend(list: &[u16], slice: Slice, table: Table) -> &[u16]
    requires { (layout_of table).start + (layout_of table).width * (layout_of table).ceiling ≤ length list.now }
    ensures { result.now
        ≡ slice_lent list.now (layout_of table).start (slice_number slice)
        ((layout_of table).width * rows_given list.now (table_number table))
        ((layout_of table).width * (layout_of table).ceiling) }
{
    let layout = table.layout();
    let start = layout.start as usize;
    let width = layout.width as usize;
    let words = width * (rows_given(list, table) as usize);
    let top = width * (layout.ceiling as usize);
    let end = start + length_of(list, slice, words, top);
    &list[start..end]
}

// The solver asked about a list, with its counts and the slices that it may change.
// kept: five lent slices apart, as `solve` takes them: as a struct within a Search they were tried, and a &mut slice of
// a struct within a struct is lost at the end of the outer one.
// kept: a bound on the list and no array of LIST_WORDS words, which would ask more of callers; so in the crates above.
#[tactic(auto, unfolding(list_memory::specs::Layouts::layout_of))]
pub fn solve_list(
    list: &[u16],
    given: Given,
    sorts: &mut [u16],
    nodes: &mut [u16],
    binds: &mut [u16],
    scratch: &mut [u16],
    index: &mut [u16],
    handout: &mut Handout<'_>,
) -> Result<Verdict, Refusal>
    requires { rows_at ≤ length list.now }
    ensures says { solve_left_with result sorts.new nodes.new binds.new scratch.new index.new handout.new
        ≡ solve_entry (call_by list.now given sorts.old nodes.old binds.old scratch.old index.old
        handout.old.typing.now handout.old.measure.now handout.old.choices.now) }
    ensures same_reference { SameHandout handout.old handout.new }
{
    let exprs = lend(list, Slice::Exprs, Table::Exprs);
    let names = lend(list, Slice::Names, Table::Names);
    let constraints = lend(list, Slice::Constraints, Table::Constraints);
    let overloads = lend(list, Slice::Overloads, Table::Overloads);
    let sources = lend(list, Slice::Sources, Table::Sources);
    let problem = Problem {
        exprs,
        names,
        constraints,
        overloads,
        sources,
        given,
    };
    solve(sorts, nodes, binds, &problem, scratch, index, handout)
}
