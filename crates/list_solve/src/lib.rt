// The solver asked about a list that stands in words, with nodes, bindings, scratch and index that are copies: the list
// stays as it is.
#![tactic(auto)]

ghost use Rattle.std.specs.Prelude.{◌≡◌, ◌≤◌, length};
ghost use Rattle.inference.specs.SolveEntry.{solve_entry};
ghost use Rattle.list_memory.specs.Memory.{rows_at};
ghost use Rattle.list_call.specs.Lists.{call_on};
ghost use Rattle.solve_outputs.specs.Handout.{SameHandout};
ghost use Rattle.list_solve.specs.Inner.Asked.{list_answer, list_answer_of};

use inference::{SCRATCH_WORDS, Verdict};
use list_call::{given_in, length_of, solve_list};
use list_memory::{
    LIST_BINDS_AT, LIST_INDEX_AT, LIST_NODES_AT, LIST_SCRATCH_AT, Slice, Table, rows_given,
};
use resolved_sort::{Refusal, SLOTS};
use solve_outputs::Handout;
use unification::{MAX_VARS, NODE_WORDS};
use words::copied;

// The solver asked about a list, with nodes, bindings, scratch and index of its own.
pub fn ask(list: &[u16], sorts: &mut [u16], handout: &mut Handout<'_>) -> Result<Verdict, Refusal>
    requires { rows_at ≤ length list.now }
    ensures says { list_answer result sorts.new handout.new.typing.now handout.new.measure.now handout.new.choices.now
        ≡ list_answer_of
        (solve_entry
        (call_on list.now sorts.old handout.old.typing.now handout.old.measure.now handout.old.choices.now)) }
    ensures same_reference { SameHandout handout.old handout.new }
{
    let mut nodes: [u16; NODE_WORDS] = copied(list, LIST_NODES_AT);
    let mut binds: [u16; MAX_VARS] = copied(list, LIST_BINDS_AT);
    let mut scratch: [u16; SCRATCH_WORDS] = copied(list, LIST_SCRATCH_AT);
    let mut index: [u16; SLOTS] = copied(list, LIST_INDEX_AT);
    let nodes_end = length_of(list, Slice::Nodes, NODE_WORDS, NODE_WORDS);
    let rows = rows_given(list, Table::Vars) as usize;
    let binds_end = length_of(list, Slice::Bindings, rows, MAX_VARS);
    let scratch_end = length_of(list, Slice::Scratch, SCRATCH_WORDS, SCRATCH_WORDS);
    let index_end = length_of(list, Slice::Index, SLOTS, SLOTS);
    solve_list(
        list,
        given_in(list),
        sorts,
        &mut nodes[..nodes_end],
        &mut binds[..binds_end],
        &mut scratch[..scratch_end],
        &mut index[..index_end],
        handout,
    )
}
