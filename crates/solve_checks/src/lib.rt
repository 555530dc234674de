// The lists that the solver takes beside sorts, nodes and bindings: checks 1 and 8 to 14 of document 01 over them, the
// first failing check of its call, and the lists packed into one slice.
#![tactic(auto)]

ghost use Rattle.std.specs.Prelude.{◌≡◌, Bool, true, ◌&&◌, [], ◌∷◌, ℕ, ◌^◌, Option, ◌+◌, ◌*◌, ◌<◌, leb, length};
ghost use Rattle.std.specs.List.{sum_by};
ghost use Rattle.inference.specs.declared.Constraint.{Constraint};
ghost use Rattle.inference.specs.Constraints.{name_words, rows_from};
ghost use Rattle.inference.specs.SolveChecks.{Call, rows_within_lent, placed, listed, target_fine, exprs_fine, names_fine};
ghost use Rattle.inference.specs.SolveChecks.{overload_fine, run_fine, constraint_fine, constraints_fine};
ghost use Rattle.inference.specs.SolveChecks.{disjunction_for, disjunctions, given, no_two, keys, has_sources};
ghost use Rattle.inference.specs.SolveChecks.{joins_fine, components_of, components as componentsIn, all_within_lent};
ghost use Rattle.inference.specs.SolveChecks.{row_checks, last_checks, solve_checks};
ghost use Rattle.inference.specs.Inner.RowsLent.{RowsLent};
ghost use Rattle.search_state.specs.Inner.Memory.{problem_in};
ghost use Rattle.problem_words.specs.Inner.Packed.{problem_from, Packable};
ghost use Rattle.solve_checks.specs.Inner.Calls.{Outs, call_for, solve_call, constraint_rows};
ghost use Rattle.solve_checks.specs.Inner.Marks.{marked, mark_of, disjunction_expr, exprs_for, EachIsExpr};
ghost use Rattle.solve_checks.specs.Inner.Tests.{name_fine, source_fine, constraint_row_fine, Computes};
ghost use Rattle.resolved_sort.specs.Checks.{first_failing};

use inference::{
    CHOICE_WORDS, CONSTRAINT_WORDS, Constraint, ExprId, LitKind, MAX_COMPONENTS, MAX_CONSTRAINTS,
    MAX_EXPRS, MAX_OVERLOADS, MAX_SOURCES, NAME_WORDS, NameKind, OVERLOAD_WORDS, SCRATCH_WORDS,
    TYPING_WORDS,
};
use node_checks::{bindings_within_lent, is_place, nodes_within_lent, test_nodes};
use problem_words::{ConstraintKind, constraint_at};
use resolved_sort::{Refusal, Run, SLOTS, SORT_WORDS, SortId};
use search_state::{EXPRS_AT, OVERLOADS_AT, SOURCES_AT, Sizes};
use sort_checks::{test_sorts, within_lent};
use unification::{InferSortId, NODE_WORDS};
use words::{copy, word};

// How many rows of each list a call gives, as the caller says it, and the default sort.
#[derive(Clone, Copy, Drop)]
pub struct Given {
    pub sorts: usize,
    pub entries: usize,
    pub nodes: usize,
    pub arguments: usize,
    pub variables: usize,
    pub exprs: usize,
    pub names: usize,
    pub constraints: usize,
    pub overloads: usize,
    pub sources: usize,
    pub default: SortId,
}

// How many words are lent for scratch, for the index of sorts and for each output.
#[derive(Clone, Copy, Drop)]
pub struct Room {
    pub scratch: usize,
    pub index: usize,
    pub typing: usize,
    pub measure: usize,
    pub choices: usize,
}

// The lists of a problem in the words that a caller lends, and how many rows of each it gives.
#[derive(Clone, Copy, Drop)]
pub struct Problem<'a> {
    pub exprs: &'a [u16],
    pub names: &'a [u16],
    pub constraints: &'a [u16],
    pub overloads: &'a [u16],
    pub sources: &'a [u16],
    pub given: Given,
}

// The sorts, nodes and bindings that a problem speaks of, in the words that a caller lends.
#[derive(Clone, Copy, Drop)]
pub struct Storage<'a> {
    pub sorts: &'a [u16],
    pub nodes: &'a [u16],
    pub binds: &'a [u16],
}

// A problem that check 1 has passed: each list is within its ceiling and within what was lent.
#[derive(Clone, Copy)]
struct Within<'a> {
    problem: Problem<'a>,
    ghost within: { RowsLent (call_for problem) },
}

// A check, and its refusal where it does not pass.
#[tactic(auto, unfolding(resolved_sort::specs::Checks::first_failing))]
fn check(passes: bool, refusal: Refusal) -> Result<(), Refusal>
    ensures { result ≡ first_failing (record { refusal = refusal; passes = passes } ∷ []) }
{
    if passes { Ok(()) } else { Err(refusal) }
}

// Whether so many rows of so many words are within their ceiling and within what was lent.
fn fits(count: usize, ceiling: usize, width: usize, lent: &[u16]) -> bool
    requires { width * ceiling < 2 ^ 64 }
    ensures { result ≡ (leb count ceiling && leb (width * count) (length lent.now)) }
{
    count <= ceiling && width * count <= lent.len()
}

// Whether a run is inside a list of so many, and each of it is fine.
fn run_fine<F: Fn(u32) -> bool>(run: Run, count: usize, fine: F) -> bool
    requires { F.IsAlwaysCallable fine }
    ensures { (I : Call) (f : ℕ → Bool) → Computes (F.post fine) f → result ≡ run_fine I count f run }
{
    (run.start as usize) + (run.count as usize) <= count
        && (0..run.count).all(|j| fine((run.start as u32) + (j as u32)))
}

// Marks an expression, and whether it was not marked yet. Past the end there is nothing to mark.
fn mark(seen: &mut [bool], expr: ExprId) -> bool
    ensures { marked seen.new result ≡ mark_of seen.old expr.0 }
{
    let at = expr.0 as usize;
    if seen.len() <= at {
        return true;
    }
    let fresh = !seen[at];
    seen[at] = true;
    fresh
}

// Whether no two of so many rows are for one expression. A row may be for none.
fn no_two<F: Fn(usize) -> Option<ExprId>>(count: usize, expr_of: F) -> bool
    requires { (i : ℕ) → i < count → F.pre expr_of i }
    ensures { (f : ℕ → Option ExprId) → Computes (F.post expr_of) f → EachIsExpr count f
        → result ≡ no_two (exprs_for (rows_from f 0 count)) }
{
    let mut seen = [false; MAX_EXPRS];
    for i in 0..count {
        if let Some(expr) = expr_of(i) {
            if !mark(&mut seen, expr) {
                return false;
            }
        }
    }
    true
}

// The sum of what the constraints count, each by itself.
// kept: a count beside the list, since what is lent may be longer, and to cut it would ask three contracts for check 1.
fn total<F: Fn(Constraint) -> u16>(constraints: &[u16], count: u16, counts: F) -> usize
    requires { F.IsAlwaysCallable counts }
    ensures { (f : Constraint → ℕ) → Computes (F.post counts) f
        → result ≡ sum_by f (constraint_rows constraints.now count) }
{
    let mut sum: usize = 0;
    for i in 0..count {
        let more = counts(constraint_at(constraints, i));
        sum += more as usize;
    }
    sum
}

// How many measure components a constraint has.
fn components_of(says: Constraint) -> u16
    ensures { result ≡ components_of says }
{
    match says {
        Constraint::Sub { .. } | Constraint::Lit { .. } => 1,
        Constraint::Join { sources, .. } => sources.count,
        Constraint::Disjunction { .. } | Constraint::Comprehension { .. } => 0,
    }
}

// How many measure components all have. Runs may overlap, so there can be more than 65,535.
pub fn components(constraints: &[u16], count: u16) -> usize
    ensures { result ≡ componentsIn (constraint_rows constraints.now count) }
{
    total(constraints, count, components_of)
}

// How many disjunctions a constraint is: one or none.
fn disjunctions_of(says: Constraint) -> u16
    ensures { result ≡ length (disjunction_for says []) }
{
    matches!(says, Constraint::Disjunction { .. }) as u16
}

// How many disjunctions there are.
pub fn disjunction_count(constraints: &[u16], count: u16) -> usize
    ensures { result ≡ length (disjunctions (constraint_rows constraints.now count)) }
{
    total(constraints, count, disjunctions_of)
}

// The expression that a constraint is a disjunction for.
fn disjunction_expr(says: Constraint) -> Option<ExprId>
    ensures { result ≡ disjunction_expr says }
{
    match says {
        Constraint::Disjunction { expr, .. } => Some(expr),
        _ => None,
    }
}

// Whether a constraint is no Join without sources.
fn has_sources(says: Constraint) -> bool
    ensures { result ≡ has_sources says }
{
    !matches!(says, Constraint::Join { sources, .. } if sources.count == 0)
}

impl Problem<'_> {
    // Check 1: expressions, base names, constraints, overloads and sources are within their ceilings and within what
    // was lent. Base names have no ceiling.
    fn rows_within_lent(&self) -> bool
        ensures { result ≡ rows_within_lent (call_for self.now) }
    {
        fits(self.given.exprs, MAX_EXPRS, 1, self.exprs)
            && self.given.names <= self.names.len() / NAME_WORDS
            && fits(
                self.given.constraints,
                MAX_CONSTRAINTS,
                CONSTRAINT_WORDS,
                self.constraints,
            )
            && fits(
                self.given.overloads,
                MAX_OVERLOADS,
                OVERLOAD_WORDS,
                self.overloads,
            )
            && fits(self.given.sources, MAX_SOURCES, 1, self.sources)
    }

    // Check 1: every list is within its ceiling and within what was lent.
    #[tactic(auto, unfolding(inference::specs::SolveChecks::all_within_lent, inference::specs::SolveChecks::rows_within_lent))]
    fn all_within_lent(&self, storage: &Storage<'_>) -> bool
        ensures { (room : Room) (o : Outs room) → result ≡ all_within_lent (solve_call storage.now self.now room o) }
    {
        within_lent(storage.sorts, self.given.sorts, self.given.entries)
            && nodes_within_lent(storage.nodes, self.given.nodes, self.given.arguments)
            && bindings_within_lent(storage.binds, self.given.variables)
            && self.rows_within_lent()
    }

    // Whether a place is one of the given sorts or nodes.
    fn placed(&self, place: InferSortId) -> bool
        ensures { result ≡ placed (call_for self.now) place.0 }
    {
        is_place(self.given.sorts, self.given.nodes, place)
    }

    // Whether a sort is one of those given.
    fn listed(&self, sort: SortId) -> bool
        ensures { result ≡ listed (call_for self.now) sort.0 }
    {
        (sort.0 as usize) < self.given.sorts
    }

    // Check 8: each expression has a place.
    fn exprs_fine(&self) -> bool
        ensures { result ≡ exprs_fine (call_for self.now) }
    {
        (0..self.given.exprs).all(|x| self.placed(InferSortId(word(self.exprs, x))))
    }

    // Whether a name target has a known kind and, where it is an operation, a sort of the list.
    fn target_fine(&self, kind: u16, sort: SortId) -> bool
        ensures { result ≡ target_fine (call_for self.now) kind sort.0 }
    {
        let Ok(kind) = NameKind::try_from(kind) else {
            return false;
        };
        match kind {
            NameKind::Op => self.listed(sort),
            NameKind::Variable | NameKind::Builtin => true,
        }
    }

    // Whether the i-th base name is for an expression and has a fine target.
    fn name_fine(&self, i: usize) -> bool
        requires { name_words * i + 2 < length self.now.names.now }
        ensures { result ≡ name_fine (call_for self.now) i }
    {
        let row = NAME_WORDS * i;
        (word(self.names, row) as usize) < self.given.exprs
            && self.target_fine(word(self.names, row + 1), SortId(word(self.names, row + 2)))
    }

    // Whether the i-th overload has a fine target and a place.
    #[tactic(auto, unfolding(inference::specs::SolveChecks::overload_fine))]
    fn overload_fine(&self, i: u32) -> bool
        ensures { result ≡ overload_fine (call_for self.now) i }
    {
        let row = OVERLOAD_WORDS * (i as usize);
        self.target_fine(
            word(self.overloads, row),
            SortId(word(self.overloads, row + 1)),
        ) && self.placed(InferSortId(word(self.overloads, row + 2)))
    }

    // Whether a run is inside the overloads, and each of it is fine.
    fn overloads_fine(&self, run: Run) -> bool
        ensures { result
            ≡ run_fine (call_for self.now) self.now.given.overloads (overload_fine (call_for self.now)) run }
    {
        run_fine(run, self.given.overloads, |i| self.overload_fine(i))
    }

    // Whether the i-th source is a place.
    fn source_fine(&self, i: u32) -> bool
        ensures { result ≡ source_fine (call_for self.now) i }
    {
        self.placed(InferSortId(word(self.sources, i as usize)))
    }

    // Whether a run is inside the sources, and each of it is a place.
    fn sources_fine(&self, run: Run) -> bool
        ensures { result
            ≡ run_fine (call_for self.now) self.now.given.sources (source_fine (call_for self.now)) run }
    {
        run_fine(run, self.given.sources, |i| self.source_fine(i))
    }

    // Whether a constraint is fine, by what it says; b is the word of a literal's kind.
    fn constraint_fine(&self, b: u16, says: Constraint) -> bool
        ensures { result ≡ constraint_fine (call_for self.now) b says }
    {
        match says {
            Constraint::Sub { lhs, rhs } => self.placed(lhs) && self.placed(rhs),
            Constraint::Lit { sort, .. } => self.placed(sort) && LitKind::try_from(b).is_ok(),
            Constraint::Disjunction {
                expr,
                sort,
                disjuncts,
            } => {
                (expr.0 as usize) < self.given.exprs
                    && self.placed(sort)
                    && self.overloads_fine(disjuncts)
            }
            Constraint::Comprehension {
                body,
                node,
                element,
            } => self.placed(body) && self.placed(node) && self.listed(element),
            Constraint::Join { sources, target } => {
                self.placed(target) && self.sources_fine(sources)
            }
        }
    }

    // Whether the i-th constraint has a known kind and is fine.
    fn row_fine(&self, i: u16) -> bool
        ensures { result ≡ constraint_row_fine (call_for self.now) i }
    {
        let row = CONSTRAINT_WORDS * (i as usize);
        ConstraintKind::try_from(word(self.constraints, row)).is_ok()
            && self.constraint_fine(
                word(self.constraints, row + 2),
                constraint_at(self.constraints, i),
            )
    }

    // Packs the lists of the problem, as far as they are given: constraints, overloads, sources and places of
    // expressions, each at its ceiling.
    // kept: lists and sizes apart, since a Search takes the one and the other.
    pub fn pack(&self, lists: &mut [u16], sizes: Sizes)
        requires { Packable lists.old self.now.exprs.now self.now.constraints.now
            self.now.overloads.now self.now.sources.now sizes }
        ensures { problem_in lists.new sizes
            ≡ problem_from self.now.exprs.now self.now.constraints.now
            self.now.overloads.now self.now.sources.now sizes }
    {
        copy(
            lists,
            0,
            self.constraints,
            0,
            CONSTRAINT_WORDS * (sizes.constraints as usize),
        );
        copy(
            lists,
            OVERLOADS_AT,
            self.overloads,
            0,
            OVERLOAD_WORDS * (sizes.overloads as usize),
        );
        copy(lists, SOURCES_AT, self.sources, 0, sizes.sources as usize);
        copy(lists, EXPRS_AT, self.exprs, 0, sizes.exprs as usize);
    }

    // The checks of the solver: the first that fails, whatever stands in scratch, index and outputs.
    pub fn test_solve(&self, storage: &Storage<'_>, room: Room) -> Result<(), Refusal>
        ensures { (o : Outs room)
            → result ≡ first_failing (solve_checks (solve_call storage.now self.now room o)) }
    {
        let given = self.given;
        check(self.all_within_lent(storage), Refusal::NotLent)?;
        test_sorts(storage.sorts, given.sorts, given.entries)?;
        test_nodes(
            given.sorts,
            storage.nodes,
            given.nodes,
            given.arguments,
            storage.binds,
            given.variables,
        )?;
        let within = Within { problem: *self };
        within.test_rows()?;
        within.test_last(storage, room)
    }
}

impl Within<'_> {
    // How many constraints are given.
    fn constraint_count(&self) -> u16
        ensures { result ≡ self.now.problem.given.constraints }
    {
        self.problem.given.constraints as u16
    }

    // Check 8: each base name is fine.
    fn names_fine(&self) -> bool
        ensures { result ≡ names_fine (call_for self.now.problem) }
    {
        (0..self.problem.given.names).all(|i| self.problem.name_fine(i))
    }

    // Check 9: each constraint is fine.
    fn constraints_fine(&self) -> bool
        ensures { result ≡ constraints_fine (call_for self.now.problem) }
    {
        (0..self.constraint_count()).all(|i| self.problem.row_fine(i))
    }

    // Check 10: no two disjunctions are for one expression.
    fn one_disjunction_each(&self) -> bool
        requires { constraints_fine (call_for self.now.problem) ≡ true }
        ensures { result ≡ no_two (disjunctions (given (call_for self.now.problem))) }
    {
        no_two(self.problem.given.constraints, |i| {
            disjunction_expr(constraint_at(self.problem.constraints, i as u16))
        })
    }

    // Check 10: no two base names are for one expression.
    fn one_name_each(&self) -> bool
        requires { names_fine (call_for self.now.problem) ≡ true }
        ensures { result ≡ no_two (keys (call_for self.now.problem)) }
    {
        no_two(self.problem.given.names, |i| {
            Some(ExprId(word(self.problem.names, NAME_WORDS * i)))
        })
    }

    // Check 11: no Join is without sources.
    fn joins_fine(&self) -> bool
        ensures { result ≡ joins_fine (given (call_for self.now.problem)) }
    {
        (0..self.constraint_count()).all(|i| has_sources(constraint_at(
            self.problem.constraints,
            i,
        )))
    }

    // Checks 8 to 10: the first that fails.
    fn test_rows(&self) -> Result<(), Refusal>
        ensures { result ≡ first_failing (row_checks (call_for self.now.problem)) }
    {
        check(self.problem.exprs_fine(), Refusal::BadExpression)?;
        check(self.names_fine(), Refusal::BadExpression)?;
        check(self.constraints_fine(), Refusal::BadConstraint)?;
        check(self.one_disjunction_each(), Refusal::TwoForOne)?;
        check(self.one_name_each(), Refusal::TwoForOne)
    }

    // Checks 11, 12 and 14: the first that fails. Outputs have a row for each expression, each component and each
    // disjunction.
    fn test_last(&self, storage: &Storage<'_>, room: Room) -> Result<(), Refusal>
        ensures { (o : Outs room)
            → result ≡ first_failing (last_checks (solve_call storage.now self.now.problem room o)) }
    {
        let problem = self.problem;
        let count = self.constraint_count();
        let parts = components(problem.constraints, count);
        let choices = disjunction_count(problem.constraints, count);
        check(self.joins_fine(), Refusal::BadJoin)?;
        check(parts <= MAX_COMPONENTS, Refusal::BadJoin)?;
        check(problem.listed(problem.given.default), Refusal::NotInList)?;
        check(SORT_WORDS <= storage.sorts.len(), Refusal::TooShort)?;
        check(NODE_WORDS <= storage.nodes.len(), Refusal::TooShort)?;
        check(SCRATCH_WORDS <= room.scratch, Refusal::TooShort)?;
        check(SLOTS <= room.index, Refusal::TooShort)?;
        check(
            TYPING_WORDS * problem.given.exprs <= room.typing,
            Refusal::TooShort,
        )?;
        check(parts <= room.measure, Refusal::TooShort)?;
        check(choices <= room.choices / CHOICE_WORDS, Refusal::TooShort)
    }
}
