// The entry solve. It takes the lent sort and node storage, the bindings, the lists of the problem
// and their counts, scratch, index and outputs, tests them itself, and has no `requires`: whatever
// a caller hands in, the answer and all lent memory at exit are the defined ones.
#![tactic(auto)]

ghost use Rattle.std.specs.Prelude.{◌≡◌, [], Ok};
ghost use Rattle.resolved_sort.specs.Checks.{first_failing};
ghost use Rattle.inference.specs.SolveChecks.{solve_checks};
ghost use Rattle.inference.specs.SolveEntry.{solve_entry};
ghost use Rattle.search_state.specs.declared.Next.TheVariants.{Solve};
ghost use Rattle.search_state.specs.Inner.Solving.{Searching, SameProblem, Indexes};
ghost use Rattle.solve_outputs.specs.Inner.Begin.{nothing_taken};
ghost use Rattle.solve_checks.specs.Call.{call_of};
ghost use Rattle.solve_outputs.specs.Handout.{call_with, solve_left_with, SameHandout};
ghost use Rattle.solve_outputs.specs.Inner.Finish.{solve_left_by};
ghost use Rattle.solve_outputs.specs.Inner.Handing.{names_read, left_in, CanHandOut};
ghost use Rattle.solve_outputs.specs.Packed.{packed_solve, pack_solve_left};
ghost use Rattle.solve_entries.specs.Given.{given_of};
ghost use Rattle.solve_entries.specs.Inner.Searched.{settled_from};

use inference::Verdict;
use resolved_sort::{Refusal, SortId};
use search_state::{PROBLEM_WORDS, Search};
use solve_checks::{Given, Problem, Room, Storage};
use solve_outputs::{BaseNames, Handout, finish, lengths_of, nothing_taken, pack_solved, sizes_of};
use sort_interner::fill_index;

// The search, from the first constraint on, and what comes after it. The words of the index at exit are said by
// themselves, all zero: no clause of the search says how many they are, and where they were lent that is known.
fn run(
    search: &mut Search<'_>,
    handout: &mut Handout<'_>,
    names: &BaseNames<'_>,
) -> Result<Verdict, Refusal>
    requires fine { Searching search.old nothing_taken 0 [] (Solve 0) × CanHandOut search.old handout.old }
    requires indexed { Indexes search.old }
    ensures says { left_in result search.new handout.new
        ≡ solve_left_by search.old.lengths search.old.nodes.now search.old.binds.now search.old.scratch.now
        search.new.index.now
        (settled_from search.old (names_read names.now.words.now names.now.count) handout.old) }
    ensures same_problem { SameProblem search.old search.new }
    ensures same_handout { SameHandout handout.old handout.new }
{
    let entry = search.lengths;
    let found = solver::solve(search, nothing_taken(), 0);
    Ok(finish(search, handout, names, entry, found)?)
}

// Solve on a problem that passed its checks.
// kept: five lent slices apart, here and in solve, and no Storage: within a Search it was tried, and the words of its
// slices are lost where the borrow of the Search ends; out of a Storage the Search would take each of them again.
fn solve_passed(
    sorts: &mut [u16],
    nodes: &mut [u16],
    binds: &mut [u16],
    problem: &Problem<'_>,
    scratch: &mut [u16],
    index: &mut [u16],
    handout: &mut Handout<'_>,
) -> Result<Verdict, Refusal>
    requires { first_failing (solve_checks (call_with problem.now sorts.old nodes.old binds.old scratch.old index.old
        handout.old))
        ≡ Ok tt }
    ensures says { solve_left_with result sorts.new nodes.new binds.new scratch.new index.new handout.new
        ≡ solve_entry (call_with problem.now sorts.old nodes.old binds.old scratch.old index.old handout.old) }
    ensures same_reference { SameHandout handout.old handout.new }
{
    let lengths = lengths_of(problem.given);
    let sizes = sizes_of(problem);
    let mut lists = [0; PROBLEM_WORDS];
    problem.pack(&mut lists, sizes);
    let names = BaseNames {
        words: problem.names,
        count: problem.given.names,
    };
    fill_index(sorts, index, lengths.sorts);
    let mut search = Search {
        sorts,
        index,
        nodes,
        binds,
        scratch,
        lists: &lists,
        sizes,
        lengths,
        best: None,
    };
    run(&mut search, handout, &names)
}

// Infers the sorts of the expressions. A refusal (1 to 14) changes nothing. After 15 and 16 sorts and nodes are those
// given, with zeros past them; after 0, 17 and 18 new sorts stay, and past the given nodes are zeros. After 15 to 18
// and 0 the bindings are as at entry, and scratch and index are zero. Outputs are written under 0 only, up to their
// counts: the typing with the least measure of the leaves met.
// Ruled out: 17 for a list whose search met a leaf; a typing written where the least measure was met twice.
pub fn solve(
    sorts: &mut [u16],
    nodes: &mut [u16],
    binds: &mut [u16],
    problem: &Problem<'_>,
    scratch: &mut [u16],
    index: &mut [u16],
    handout: &mut Handout<'_>,
) -> Result<Verdict, Refusal>
    ensures says { solve_left_with result sorts.new nodes.new binds.new scratch.new index.new handout.new
        ≡ solve_entry (call_with problem.now sorts.old nodes.old binds.old scratch.old index.old handout.old) }
    ensures same_reference { SameHandout handout.old handout.new }
{
    let room = Room {
        scratch: scratch.len(),
        index: index.len(),
        typing: handout.typing.len(),
        measure: handout.measure.len(),
        choices: handout.choices.len(),
    };
    let storage = Storage {
        sorts,
        nodes,
        binds,
    };
    problem.test_solve(&storage, room)?;
    solve_passed(sorts, nodes, binds, problem, scratch, index, handout)
}

// The entry for callers in other languages: a slice is a pointer and a length, counts are numbers,
// and the answer is packed.
// kept: an export with its parameters apart, since C calls it so.
#[unsafe(no_mangle)]
pub extern "C" fn sort_solve(
    sorts: &mut [u16],
    sort_count: usize,
    entry_count: usize,
    nodes: &mut [u16],
    node_count: usize,
    node_entry_count: usize,
    binds: &mut [u16],
    var_count: usize,
    exprs: &[u16],
    expr_count: usize,
    names: &[u16],
    name_count: usize,
    constraints: &[u16],
    constraint_count: usize,
    overloads: &[u16],
    overload_count: usize,
    sources: &[u16],
    source_count: usize,
    default: u16,
    scratch: &mut [u16],
    index: &mut [u16],
    typing: &mut [u16],
    measure: &mut [u16],
    choices: &mut [u16],
) -> u64
    ensures { packed_solve result sorts.new nodes.new binds.new scratch.new index.new
        typing.new measure.new choices.new
        ≡ pack_solve_left (solve_entry (call_of (given_of sort_count entry_count node_count node_entry_count
        var_count expr_count name_count constraint_count overload_count source_count default)
        sorts.old nodes.old binds.old exprs.now
        names.now constraints.now overloads.now sources.now
        scratch.old index.old typing.old measure.old choices.old)) }
{
    let given = Given {
        sorts: sort_count,
        entries: entry_count,
        nodes: node_count,
        arguments: node_entry_count,
        variables: var_count,
        exprs: expr_count,
        names: name_count,
        constraints: constraint_count,
        overloads: overload_count,
        sources: source_count,
        default: SortId(default),
    };
    let mut handout = Handout {
        typing,
        measure,
        choices,
    };
    let problem = Problem {
        exprs,
        names,
        constraints,
        overloads,
        sources,
        given,
    };
    pack_solved(solve(sorts, nodes, binds, &problem, scratch, index, &mut handout))
}
