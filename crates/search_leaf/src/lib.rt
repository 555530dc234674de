// The leaves of the search, and which branches are dropped before one: from merc's inference.rs,
// dominated, leaf and extract. The incumbent stands in the scratch: its sorts at 512, its measure
// at 1280, the positions that it chose at 1792.
#![tactic(auto)]

ghost use Rattle.std.specs.Prelude.{◌≡◌, ◌+◌, ◌≤◌, length};
ghost use Rattle.inference.specs.Constraints.{max_components};
ghost use Rattle.inference.specs.Measure.{ranking_of};
ghost use Rattle.inference.specs.Search.{replace as replaceLeaf, leaf as leafNext};
ghost use Rattle.inference.specs.SolveEntry.{nothing_met};
ghost use Rattle.search_state.specs.Inner.Memory.{problem_in, best_sorts_at};
ghost use Rattle.search_state.specs.Inner.Leaves.{Extracts};
ghost use Rattle.search_state.specs.Inner.Solving.{AtLeaf, Comparable, Comes, KeepsRest, has_best, state_of, lent_of};
ghost use Rattle.search_state.specs.Inner.Solving.{Indexes, IndexesOn};
ghost use Rattle.search_leaf.specs.Inner.Leaf.{ranked_by, IsDominated, Readable, sorts_from};
ghost use Rattle.search_leaf.specs.Inner.Leaf.{copied, kept_as_best, Keepable};

use measures::compare;
use resolved_sort::NoRoom;
use search_join::sort_of;
use search_state::{
    BEST_CHOICES_AT, BEST_MEASURE_AT, BEST_SORTS_AT, Branch, CHOICES_AT, EXPRS_AT, Incumbent,
    MEASURE_AT, Search, Sizes,
};
use std::cmp::Ordering;
use unification::{Full, InferSortId};
use words::{put, word};

// How the components of the branch compare with as many of the incumbent's. Where there is no incumbent, they are less.
// How many pairs were looked at is not handed on.
fn rank(search: &Search<'_>, at: Branch) -> Ordering
    requires { at.measure ≤ max_components }
    ensures { ranking_of result
        ≡ ranked_by (has_best search.now.best) search.now.scratch.now at.measure }
{
    let Some(_) = search.best else {
        return Ordering::Less;
    };
    let n = at.measure as usize;
    let measure = &search.scratch[MEASURE_AT..MEASURE_AT + n];
    let best = &search.scratch[BEST_MEASURE_AT..BEST_MEASURE_AT + n];
    compare(measure, best).ordering
}

// Whether the measure so far is already greater than the incumbent's, so that no leaf below can replace or tie it.
// Branch and bound. A disjunction or comprehension adds no component and tries every alternative, so without this each
// one would be followed to its leaf although a better leaf is known: exponential in the number of disjunctions.
// Pruning is exact: earlier components dominate, so a prefix that is greater can never become equal or smaller, and one
// that is equal goes on, since a leaf below may tie (worse_exactly_if_extensions_greater in inference). As merc says,
// it changes nothing about which typing wins or which lists are ambiguous.
pub fn dominated(search: &Search<'_>, at: Branch) -> bool
    requires { Comparable search.now at }
    ensures { IsDominated search.now.scratch.now search.now.sizes (state_of search.now) at result }
{
    rank(search, at).is_gt()
}

// Reads the sort of every expression out of the bindings, before backtracking takes these back. A variable that is
// still free stands for the default sort. Answers whether every expression has a sort.
// Such a variable is the element sort of `#[]`, of which only the length is seen. Giving it the default accepts such
// lists, where an error about an underdetermined sort would be spurious.
fn extract(search: &mut Search<'_>) -> Result<bool, NoRoom>
    requires readable { Readable search.old.sorts.now search.old.nodes.now search.old.binds.now search.old.scratch.now
        search.old.lists.now search.old.sizes.default search.old.sizes.exprs search.old.lengths }
    requires indexed { Indexes search.old }
    ensures extracts { Extracts search.old.nodes.now search.old.scratch.now best_sorts_at search.old.sizes.exprs
        (sorts_from search.old.binds.now search.old.lists.now search.old.sizes.default 0
        search.old.sizes.exprs (lent_of search.old))
        search.new.sorts.now search.new.scratch.now search.new.lengths result
        × KeepsRest search.old search.new
        × (search.new.nodes.now ≡ search.old.nodes.now) }
    ensures indexed { IndexesOn result search.new }
{
    let default = Some(search.sizes.default);
    for i in 0..search.sizes.exprs {
        let place = InferSortId(word(search.lists, EXPRS_AT + i as usize));
        let Some(id) = sort_of(search, default, place)? else {
            return Ok(false);
        };
        put(search.scratch, BEST_SORTS_AT + i as usize, id.0);
    }
    Ok(true)
}

// Copies n words to a place after them.
// kept: word by word and no copy_within, so that an archive for C needs no memmove from outside.
fn copy(scratch: &mut [u16], from: usize, to: usize, n: usize)
    requires { (from + n ≤ to) × (to + n ≤ length scratch.old) }
    ensures { scratch.new ≡ copied from to n scratch.old }
{
    for i in 0..n {
        scratch[to + i] = scratch[from + i];
    }
}

// Keeps the measure and the choices of the branch as the incumbent's.
// kept: of a Search these two only, so that its contract says nothing of the rest.
fn keep(scratch: &mut [u16], sizes: Sizes)
    requires { Keepable sizes scratch.old }
    ensures { scratch.new ≡ kept_as_best sizes scratch.old }
{
    let components = sizes.components as usize;
    copy(scratch, MEASURE_AT, BEST_MEASURE_AT, components);
    let disjunctions = sizes.disjunctions as usize;
    copy(scratch, CHOICES_AT, BEST_CHOICES_AT, disjunctions);
}

// The leaf becomes the incumbent.
// Its sorts are read out now and not at the end, because backtracking takes back the bindings that they are read from.
fn replace(search: &mut Search<'_>, at: Branch) -> Result<bool, Full>
    requires at_leaf { AtLeaf search.old at }
    requires indexed { Indexes search.old }
    ensures comes { Comes search.old at (λ ls z. replaceLeaf (Unit {0}) nothing_met (problem_in ls z))
        search.new result }
    ensures indexed { IndexesOn result search.new }
{
    if !extract(search)? {
        return Ok(false);
    }
    keep(search.scratch, search.sizes);
    search.best = Some(Incumbent { tied: false });
    Ok(true)
}

// Keeps a leaf that is less than the incumbent, and marks the incumbent where the leaf has its measure: an unbeaten
// tie is ambiguous.
// All leaves have the same number of components, one for each Sub, Lit and Join source, so their measures compare.
pub fn leaf(search: &mut Search<'_>, at: Branch) -> Result<bool, Full>
    requires at_leaf { AtLeaf search.old at }
    requires indexed { Indexes search.old }
    ensures comes { Comes search.old at (λ ls z. leafNext (Unit {0}) nothing_met (problem_in ls z))
        search.new result }
    ensures indexed { IndexesOn result search.new }
{
    match rank(search, at) {
        Ordering::Less => replace(search, at),
        Ordering::Equal => {
            search.best = Some(Incumbent { tied: true });
            Ok(true)
        }
        Ordering::Greater => Ok(true),
    }
}
