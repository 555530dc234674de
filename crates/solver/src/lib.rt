// The solver of merc's inference.rs, from `solve` on: ranked backtracking over the constraints, in the order of the
// list. A disjunction or comprehension tries every alternative; a sub-constraint, literal or join tries its
// resolutions cheapest first and stops at the first that succeeds. Where the Rust hands a closure to
// `solve_widening`, a value names what comes next.
// Each sub-constraint and literal adds one component to the measure, a join one for each source, and 0 is the best.
// Earlier components matter more (the arguments of an application come before the whole equation), so measures
// compare from the front, and the least is the most specific typing. Disjunctions and comprehensions add none and are
// tried exhaustively, so that a tie through different overloads is still seen as ambiguity.
#![tactic(auto)]

ghost use Rattle.std.specs.Prelude.{◌≡◌, false, [], ◌∷◌, ◌+◌, ◌-◌, ◌<◌, drop};
ghost use Rattle.inference.specs.Constraints.{overload_at, rows_from};
ghost use Rattle.inference.specs.Search.{widening, first_found, literal, every_reading, every_overload, sequence};
ghost use Rattle.inference.specs.Search.{joining, step as step_of};
ghost use Rattle.inference.specs.SolveChecks.{components_of};
ghost use Rattle.inference.specs.SolveEntry.{nothing_met};
ghost use Rattle.unification.specs.Checked.{Placed};
ghost use Rattle.inference.specs.Inner.Listed.{ListedConstraint};
ghost use Rattle.search_state.specs.declared.Next.TheVariants.{Solve, Source};
ghost use Rattle.search_state.specs.Inner.Memory.{overloads_at, source_at, problem_in, solve_from, next_of};
ghost use Rattle.search_state.specs.Inner.Leaves.{PairsPlaced, added_components, tries_from};
ghost use Rattle.search_state.specs.Inner.Searching.{SourcesFine, exprs_of, trying};
ghost use Rattle.search_state.specs.Inner.Solving.{Searching, Comes, lent_of, Indexes, IndexesOn};
ghost use Rattle.solver.specs.Inner.Asked.{TriesFine, OverloadsFine, exprs_of_constraint, readings_from};

use inference::{Constraint, ExprId, LitKind};
use problem_words::{constraint_at, overload_place, source_at};
use resolved_sort::{ComplexSort, FIRST_PRIMITIVE, Run, Sort, SortId};
use search_join::agreed;
use search_leaf::{dominated, leaf};
use search_state::{Branch, LitAt, Next, Pairs, Search, Step, Tries};
use search_steps::{
    container_in_search, give_back, lit_in_search, lit_tries, push, roll_back, try_component,
    try_pairs, unify_pairs, widenings_in_search,
};
use unification::{Full, InferSortId};

// What a comprehension may be: the sort of its body, and the container that it makes.
#[derive(Clone, Copy)]
struct Reading {
    body: InferSortId,
    op: ComplexSort,
}

// Bool and Set, Nat and Bag, Pos and Bag.
// kept: the numbers of places by a sum and no From, here since a constant calls no trait's method, and in the cycle of
// calls below since its goals would speak of what From answers.
const READINGS: [Reading; 3] = [
    Reading {
        body: InferSortId(FIRST_PRIMITIVE + Sort::Bool as u16),
        op: ComplexSort::Set,
    },
    Reading {
        body: InferSortId(FIRST_PRIMITIVE + Sort::Nat as u16),
        op: ComplexSort::Bag,
    },
    Reading {
        body: InferSortId(FIRST_PRIMITIVE + Sort::Pos as u16),
        op: ComplexSort::Bag,
    },
];

// Solves the constraints from `index` on; answers whether any leaf was reached below this point.
// kept: the search, the branch and what comes next apart in the functions of this cycle: the first is lent on as it is,
// the branch is a value that each try changes, and what comes next stays through tries and changes between calls.
#[cycle(search)]
pub fn solve(search: &mut Search<'_>, at: Branch, index: u16) -> Result<bool, Full>
    requires searching { Searching search.old at 0 [] (Solve index) }
    requires indexed { Indexes search.old }
    ensures comes { Comes search.old at (λ ls z. solve_from ls z index) search.new result }
    ensures indexed { IndexesOn result search.new }
{
    if dominated(search, at) {
        return Ok(false); // dropped, which counts as not found
    }
    if search.sizes.constraints <= index {
        return leaf(search, at);
    }
    let constraint = constraint_at(search.lists, index);
    solve_constraint(search, at, constraint, index + 1)
}

// One constraint, and then those from `then` on.
#[cycle(search)]
fn solve_constraint(
    search: &mut Search<'_>,
    at: Branch,
    constraint: Constraint,
    then: u16,
) -> Result<bool, Full>
    requires searching { Searching search.old at (components_of constraint) (exprs_of_constraint constraint)
        (Solve then)
        × ListedConstraint (lent_of search.old)
        (problem_in search.old.lists.now search.old.sizes) constraint }
    requires indexed { Indexes search.old }
    ensures comes { Comes search.old at
        (λ ls z. step_of (Unit {0}) nothing_met (problem_in ls z) constraint
        (solve_from ls z then))
        search.new result }
    ensures indexed { IndexesOn result search.new }
{
    match constraint {
        Constraint::Sub { lhs, rhs } => solve_widening(search, at, lhs, rhs, Next::Solve(then)),
        Constraint::Lit { sort, kind } => solve_lit(search, at, sort, kind, Next::Solve(then)),
        Constraint::Disjunction {
            expr,
            sort,
            disjuncts,
        } => solve_disjunction(search, at, expr, sort, disjuncts, Next::Solve(then)),
        Constraint::Comprehension {
            body,
            node,
            element,
        } => solve_comprehension(search, at, body, node, element, Next::Solve(then)),
        Constraint::Join { sources, target } => solve_join(search, at, sources, target, then),
    }
}

// Binds the target of a Join to the least upper bound of its sources and goes on. Where that does not apply, or
// finds nothing, the sources are widened one after another.
// The bound comes first because it is found in one step, whatever the order of the sources. It is not always
// enough: a later constraint on the target (an enclosing Bag or Set literal) may need it wider than the bound. The
// widenings can also reach a supersort of it.
#[cycle(search)]
fn solve_join(
    search: &mut Search<'_>,
    at: Branch,
    sources: Run,
    target: InferSortId,
    then: u16,
) -> Result<bool, Full>
    requires searching { Searching search.old at sources.count [] (Solve then)
        × SourcesFine (lent_of search.old) search.old.lists.now search.old.sizes target.0
        sources.start (sources.start + sources.count) }
    requires indexed { Indexes search.old }
    ensures comes { Comes search.old at
        (λ ls z. joining (Unit {0}) nothing_met (problem_in ls z)
        (rows_from (source_at ls) sources.start sources.count) target.0
        (solve_from ls z then))
        search.new result }
    ensures indexed { IndexesOn result search.new }
{
    let start = sources.start;
    let count = sources.count;
    let end = start + count;
    let Some(lub) = agreed(search, at, sources)? else {
        return solve_join_seq(search, at, target, start, end, then);
    };
    let pair = Pairs::One(target, InferSortId(lub.0));
    if attempt(search, at, pair, Step::Written(count), Next::Solve(then))? {
        return Ok(true);
    }
    solve_join_seq(search, at, target, start, end, then)
}

// Widens each source from `from` on to the target in turn, as separate sub-constraints would be.
// Equality comes first and then the widenings in ascending distance, so this is what the Subs would have done which
// the Join replaces.
#[cycle(search)]
fn solve_join_seq(
    search: &mut Search<'_>,
    at: Branch,
    target: InferSortId,
    from: u16,
    to: u16,
    then: u16,
) -> Result<bool, Full>
    requires searching { Searching search.old at 0 [] (Source target from to then) }
    requires indexed { Indexes search.old }
    ensures comes { Comes search.old at
        (λ ls z. sequence (Unit {0}) nothing_met (problem_in ls z)
        (rows_from (source_at ls) from (to - from)) target.0
        (solve_from ls z then))
        search.new result }
    ensures indexed { IndexesOn result search.new }
{
    if to <= from {
        return solve(search, at, then);
    }
    let source = source_at(search.lists, from);
    let next = Next::Source {
        target,
        from: from + 1,
        to,
        then,
    };
    solve_widening(search, at, source, target, next)
}

// Commits to one overload after another and goes on; all of them are explored, so that leaves of
// one measure surface as ambiguity.
#[cycle(search)]
fn solve_disjunction(
    search: &mut Search<'_>,
    at: Branch,
    expr: ExprId,
    sort: InferSortId,
    disjuncts: Run,
    next: Next,
) -> Result<bool, Full>
    requires searching { Searching search.old at 0 (expr.0 ∷ []) next
        × OverloadsFine (lent_of search.old) search.old.lists.now search.old.sizes sort.0
        disjuncts.start disjuncts.count }
    requires indexed { Indexes search.old }
    ensures comes { Comes search.old at
        (λ ls z. every_overload (Unit {0}) nothing_met (problem_in ls z) expr.0 sort.0
        (rows_from (overload_at (drop overloads_at ls)) disjuncts.start disjuncts.count)
        0 false (next_of ls z next))
        search.new result }
    ensures indexed { IndexesOn result search.new }
{
    let mut found = false;
    for i in 0..disjuncts.count {
        let place = overload_place(search.lists, disjuncts.start + i);
        found |= attempt(search, at, Pairs::One(sort, place), Step::Choice(i), next)?;
    }
    Ok(found)
}

// Commits to one reading of a comprehension after another: a Bool body makes a Set, a Nat or Pos body a Bag. The
// container is interned before the body is looked at.
// Like a disjunction it adds no component and tries every reading, so that a body which can be Bool as well as a
// number surfaces as ambiguity. Which reading holds follows from the solved sort of the body; a Pos body is a count
// as a Nat one is.
#[cycle(search)]
fn solve_comprehension(
    search: &mut Search<'_>,
    at: Branch,
    body: InferSortId,
    node: InferSortId,
    element: SortId,
    next: Next,
) -> Result<bool, Full>
    requires searching { Searching search.old at 0 [] next
        × (Placed search.old.lengths body.0)
        × (Placed search.old.lengths node.0)
        × (element.0 < search.old.lengths.sorts) }
    requires indexed { Indexes search.old }
    ensures comes { Comes search.old at
        (λ ls z. every_reading (Unit {0}) nothing_met (problem_in ls z) (readings_from 0)
        body.0 node.0 element.0 false (next_of ls z next))
        search.new result }
    ensures indexed { IndexesOn result search.new }
{
    let mut found = false;
    for reading in READINGS {
        let container = container_in_search(search, reading.op, element)?;
        let pairs = Pairs::Two(body, reading.body, node, InferSortId(container.0));
        found |= attempt(search, at, pairs, Step::Nothing, next)?;
    }
    Ok(found)
}

// Tries to make `lhs` a subsort of `rhs`: equality first, then strict widenings, nearest first. A concrete `lhs`
// may be upcast, or a concrete `rhs` met from below; two unbound variables admit no list.
// Nearest first, so that the least upcast wins: treated as equally good, they would make a Pos argument of `mod`
// ambiguous between its Nat and Int overloads. The first success is the best that this pair can contribute, so
// later ones are skipped.
// A Sub and, one after another, the sources of a Join come here; `next` says what follows, where the Rust calls its
// closure.
#[cycle(search)]
fn solve_widening(
    search: &mut Search<'_>,
    at: Branch,
    lhs: InferSortId,
    rhs: InferSortId,
    next: Next,
) -> Result<bool, Full>
    requires searching { Searching search.old at 1 [] next
        × Placed search.old.lengths lhs.0
        × Placed search.old.lengths rhs.0 }
    requires indexed { Indexes search.old }
    ensures comes { Comes search.old at
        (λ ls z. widening (Unit {0}) nothing_met (problem_in ls z) lhs.0 rhs.0
        (next_of ls z next))
        search.new result }
    ensures indexed { IndexesOn result search.new }
{
    if attempt(search, at, Pairs::One(lhs, rhs), Step::Component(0), next)? {
        return Ok(true);
    }
    let kept = search.lengths;
    let Some(t) = widenings_in_search(search, lhs, rhs)? else {
        return Ok(false);
    };
    let found = tries(search, at, t, next)?;
    search.lengths = give_back(kept, search.lengths);
    Ok(found)
}

// A literal: at a number sort its generality, at a free place one number sort after another, the most specific
// first.
// The component is the generality in both cases, so that a literal whose place is bound on one branch and free on
// another still compares consistently. The first success is the best that the literal can contribute, so the rest
// is not tried.
#[cycle(search)]
fn solve_lit(
    search: &mut Search<'_>,
    at: Branch,
    sort: InferSortId,
    kind: LitKind,
    next: Next,
) -> Result<bool, Full>
    requires searching { Searching search.old at 1 [] next × Placed search.old.lengths sort.0 }
    requires indexed { Indexes search.old }
    ensures comes { Comes search.old at
        (λ ls z. literal (Unit {0}) nothing_met (problem_in ls z) kind sort.0
        (next_of ls z next))
        search.new result }
    ensures indexed { IndexesOn result search.new }
{
    match lit_in_search(search, sort, kind) {
        LitAt::Number(generality) => {
            let then = push(search, at, at.trail, Step::Component(generality));
            resume(search, then, next)
        }
        LitAt::Free => tries(search, at, lit_tries(kind, sort), next),
        LitAt::Other => Ok(false),
    }
}

// Tries in order, up to the first that is found.
// kept: by number, since the component of a try is its number from `first` on, and `ids` has places past the last try.
#[cycle(search)]
fn tries(search: &mut Search<'_>, at: Branch, t: Tries, next: Next) -> Result<bool, Full>
    requires searching { Searching search.old at 1 [] next × TriesFine (lent_of search.old) t 0 }
    requires indexed { Indexes search.old }
    ensures comes { Comes search.old at
        (λ ls z. first_found (Unit {0}) nothing_met (problem_in ls z) (tries_from t 0)
        (next_of ls z next))
        search.new result }
    ensures indexed { IndexesOn result search.new }
{
    for j in 0..t.count {
        let component = try_component(t, j);
        if attempt(
            search,
            at,
            try_pairs(t, j),
            Step::Component(component),
            next,
        )? {
            return Ok(true);
        }
    }
    Ok(false)
}

// One try: places made equal, recorded, gone on from, and taken back.
// The branch goes by value, so nothing that was recorded outlives the try. In merc a push without its pop on a dead
// end would corrupt the measure of every later branch: a silently wrong best typing, and no crash.
#[cycle(search)]
fn attempt(
    search: &mut Search<'_>,
    at: Branch,
    pairs: Pairs,
    step: Step,
    next: Next,
) -> Result<bool, Full>
    requires searching { Searching search.old at (added_components step)
        (exprs_of search.old.lists.now search.old.sizes at step) next
        × PairsPlaced search.old.lengths pairs }
    requires indexed { Indexes search.old }
    ensures comes { Comes search.old at
        (λ ls z. trying ls z search.old.scratch.now at pairs step next)
        search.new result }
    ensures indexed { IndexesOn result search.new }
{
    let base = at.trail;
    let Some(count) = unify_pairs(search, base, pairs) else {
        return Ok(false);
    };
    let then = push(search, at, count, step);
    let found = resume(search, then, next);
    roll_back(search, base, count);
    found
}

// What comes next.
#[cycle(search)]
fn resume(search: &mut Search<'_>, at: Branch, next: Next) -> Result<bool, Full>
    requires searching { Searching search.old at 0 [] next }
    requires indexed { Indexes search.old }
    ensures comes { Comes search.old at (λ ls z. next_of ls z next) search.new result }
    ensures indexed { IndexesOn result search.new }
{
    match next {
        Next::Solve(index) => solve(search, at, index),
        Next::Source {
            target,
            from,
            to,
            then,
        } => solve_join_seq(search, at, target, from, to, then),
    }
}
