// What the search of merc's inference.rs does between its calls of itself. One try: places made equal with a trail at
// the front of the scratch, and what the try adds to its branch. The tries of a widening and of a literal, from
// solve_widening and solve_lit.
#![tactic(auto)]

ghost use Rattle.std.specs.Prelude.{◌≡◌, true, false, ◌+◌, ◌-◌, ◌<◌, ◌≤◌, take, length, OnOk};
ghost use Rattle.resolved_sort.specs.Rows.{Checked};
ghost use Rattle.resolved_sort.specs.Index.{Indexed};
ghost use Rattle.unification.specs.Nodes.{binds_of};
ghost use Rattle.unification.specs.Checked.{graph_of, Ready, Placed};
ghost use Rattle.unification.specs.Trail.{UnifyLeaves, undo as undoOf};
ghost use Rattle.unifier.specs.Inner.Trying.{Trying};
ghost use Rattle.unifier.specs.Unifier.{graph, bindings, CanTry, Keeps, Leaves};
ghost use Rattle.related_sorts.specs.Listed.{places};
ghost use Rattle.related_sorts.specs.Arena.{world, ReadyIn, PlacedIn, Keeps as KeepsArena, Indexes as ArenaIndexes};
ghost use Rattle.related_sorts.specs.Arena.{IndexesOn as ArenaIndexesOn};
ghost use Rattle.related_sorts.specs.Inner.Ranges.{SixThere};
ghost use Rattle.unification.specs.Inner.Making.{lent};
ghost use Rattle.inference.specs.Search.{lit_component};
ghost use Rattle.inference.specs.Constraints.{max_constraints, max_components};
ghost use Rattle.search_state.specs.Inner.Memory.{trail_words};
ghost use Rattle.search_state.specs.Inner.Leaves.{with_nodes, try_at};
ghost use Rattle.search_state.specs.Inner.Leaves.{widenings, FindsWidenings, lit_number, lit_at, unify_pairs};
ghost use Rattle.search_state.specs.Inner.Leaves.{PairsPlaced, trail_after, is_made, TriesPairs, step_words, added_components, added_choices};
ghost use Rattle.search_state.specs.Inner.Leaves.{branch_after};
ghost use Rattle.search_state.specs.Inner.Solving.{KeepsRest, OnlyBinds, OnlyScratch, OnlySorts, lent_of, Indexes, IndexesOn};
ghost use Rattle.search_steps.specs.Inner.Steps.{pairs_of, lit_row, LitTries, InternsContainer, ListedTries};

use infer_nodes::{Bindings, Places};
use inference::LitKind;
use related_sorts::{Arena, Listed};
use resolved_sort::{ComplexSort, Counts, NoRoom, ResolvedSort, Sort, SortId};
use search_state::{
    Branch, CHOICES_AT, LitAt, MEASURE_AT, Pairs, Search, Step, TRAIL_WORDS, Tries,
};
use sort_interner::{Sorts, generic_over};
use sort_order::number_generality;
use unification::{Full, InferSort, InferSortId, Lengths, Place};
use unifier::{Unifier, undo};

// Makes the places of a try equal, one pair after the other.
fn unify_each(unifier: &mut Unifier<'_, '_>, pairs: Pairs) -> bool
    requires { CanTry unifier.old × PairsPlaced unifier.old.places.lengths pairs }
    ensures keeps { Keeps unifier.old unifier.new }
    ensures leaves { Leaves (unify_pairs (graph unifier.old) pairs (bindings unifier.old))
        unifier.old unifier.new result }
{
    match pairs {
        Pairs::One(lhs, rhs) => unifier.unify(lhs, rhs),
        Pairs::Two(lhs, rhs, then_lhs, then_rhs) => {
            if !unifier.unify(lhs, rhs) {
                return false;
            }
            unifier.unify(then_lhs, then_rhs)
        }
    }
}

// Makes the places of a try equal, after so many variables on the trail, and answers how many are on it then. Where
// they cannot be, nothing is bound.
fn unify_on(
    places: &Places<'_>,
    binds: &mut [u16],
    trail: &mut [u16],
    base: u16,
    pairs: Pairs,
) -> Option<u16>
    requires { Trying places.now.sorts.now places.now.nodes.now binds.old trail.old places.now.lengths base
        × PairsPlaced places.now.lengths pairs }
    ensures { UnifyLeaves places.now.sorts.now places.now.nodes.now places.now.lengths
        (unify_pairs (graph_of places.now.sorts.now places.now.nodes.now places.now.lengths) pairs
        (binds_of binds.old places.now.lengths.variables))
        binds.old trail.old base binds.new trail.new (trail_after base result) (is_made result) }
{
    let mut unifier = Unifier {
        places: *places,
        binds,
        trail,
        count: base,
    };
    if !unify_each(&mut unifier, pairs) {
        unifier.undo(base);
        return None;
    }
    Some(unifier.count)
}

// The same with the trail at the front of the scratch.
pub fn unify_pairs(search: &mut Search<'_>, base: u16, pairs: Pairs) -> Option<u16>
    requires { Trying search.old.sorts.now search.old.nodes.now search.old.binds.now
        (take trail_words search.old.scratch.now) search.old.lengths base
        × PairsPlaced search.old.lengths pairs }
    ensures { TriesPairs search.old.sorts.now search.old.nodes.now search.old.lengths
        (unify_pairs (graph_of search.old.sorts.now search.old.nodes.now search.old.lengths) pairs
        (binds_of search.old.binds.now search.old.lengths.variables))
        search.old.binds.now search.old.scratch.now base search.new.binds.now search.new.scratch.now
        result
        × OnlyBinds search.old search.new }
{
    let lengths = search.lengths;
    let sorts = &mut *search.sorts;
    let nodes = &mut *search.nodes;
    let binds = &mut *search.binds;
    let scratch = &mut *search.scratch;
    let places = Places {
        sorts,
        nodes,
        lengths,
    };
    unify_on(&places, binds, &mut scratch[0..TRAIL_WORDS], base, pairs)
}

// Frees the variables on the trail from `base` on, of `count`. This looks at no place, so it asks for no Unifier.
pub fn roll_back(search: &mut Search<'_>, base: u16, count: u16)
    requires { (base ≤ count) × (count ≤ length search.old.scratch.now) }
    ensures { (search.new.binds.now
        ≡ undoOf search.old.scratch.now base (count - base) search.old.binds.now)
        × OnlyBinds search.old search.new
        × (search.new.scratch.now ≡ search.old.scratch.now) }
{
    let scratch = &mut *search.scratch;
    undo(search.binds, scratch, base, count);
}

// What a step adds to a branch with so many variables on the trail.
pub fn push(search: &mut Search<'_>, at: Branch, trail: u16, step: Step) -> Branch
    requires { (at.measure + added_components step ≤ max_components)
        × (at.choices + added_choices step ≤ max_constraints) }
    ensures { (search.new.scratch.now ≡ step_words step at search.old.scratch.now)
        × (result ≡ branch_after at trail step)
        × OnlyScratch search.old search.new }
{
    let measure = at.measure;
    let choices = at.choices;
    match step {
        Step::Nothing => Branch {
            trail,
            measure,
            choices,
        },
        Step::Component(component) => {
            search.scratch[MEASURE_AT + measure as usize] = component;
            Branch {
                trail,
                measure: measure + 1,
                choices,
            }
        }
        Step::Written(count) => Branch {
            trail,
            measure: measure + count,
            choices,
        },
        Step::Choice(position) => {
            search.scratch[CHOICES_AT + choices as usize] = position;
            Branch {
                trail,
                measure,
                choices: choices + 1,
            }
        }
    }
}

// The nodes made since `kept` given back, after the tries of a widening.
// Merc leaves nodes of an abandoned branch in its arena as harmless garbage. Here room has an end, so it is used again.
pub fn give_back(kept: Lengths, lengths: Lengths) -> Lengths
    ensures { result ≡ with_nodes kept lengths }
{
    Lengths {
        nodes: kept.nodes,
        arguments: kept.arguments,
        ..lengths
    }
}

// The places that the j-th of tries makes equal, and its component.
pub fn try_pairs(t: Tries, j: u16) -> Pairs
    ensures { result ≡ pairs_of (try_at t j) }
{
    let place = t.ids.get(j as usize).copied().unwrap_or(InferSortId(0));
    let other = t.other;
    if t.up {
        return Pairs::One(place, other);
    }
    Pairs::One(other, place)
}

pub fn try_component(t: Tries, j: u16) -> u16
    requires { (j < 4) × (t.first ≤ 1) }
    ensures { result ≡ (try_at t j).component }
{
    t.first + j
}

// The number sorts that a literal may have where its place is free, nearest first.
// The nearest is the most specific, so the first success is the best that the literal can contribute.
pub fn lit_tries(kind: LitKind, id: InferSortId) -> Tries
    ensures { LitTries kind id result }
{
    match kind {
        LitKind::Positive => Tries {
            ids: [
                Sort::Pos.into(),
                Sort::Nat.into(),
                Sort::Int.into(),
                Sort::Real.into(),
            ],
            count: 4,
            other: id,
            up: false,
            first: 0,
        },
        LitKind::Natural => Tries {
            ids: [
                Sort::Nat.into(),
                Sort::Int.into(),
                Sort::Real.into(),
                InferSortId(0),
            ],
            count: 3,
            other: id,
            up: false,
            first: 1,
        },
    }
}

// What stands at the end of a literal's place.
pub fn lit_at(
    sorts: &[u16],
    nodes: &[u16],
    binds: &[u16],
    lengths: Lengths,
    id: InferSortId,
    kind: LitKind,
) -> LitAt
    requires { Ready sorts.now nodes.now binds.now lengths × Placed lengths id.0 }
    ensures { result
        ≡ lit_at kind (graph_of sorts.now nodes.now lengths)
        (binds_of binds.now lengths.variables) id.0 }
{
    let places = Places {
        sorts,
        nodes,
        lengths,
    };
    let bindings = Bindings { places, binds };
    match Place::from(bindings.shallow_normalize(id)) {
        Place::Sort(sort) => {
            let counts = Counts::from(lengths);
            let sorts = Sorts {
                words: sorts,
                counts,
            };
            lit_at_row(sorts.get(sort), kind)
        }
        Place::Node(at) => match places.node(at) {
            InferSort::Var(_) => LitAt::Free,
            _ => LitAt::Other,
        },
    }
}

// The same in a search.
pub fn lit_in_search(search: &Search<'_>, id: InferSortId, kind: LitKind) -> LitAt
    requires { Ready search.now.sorts.now search.now.nodes.now search.now.binds.now search.now.lengths
        × Placed search.now.lengths id.0 }
    ensures { result
        ≡ lit_at kind (graph_of search.now.sorts.now search.now.nodes.now search.now.lengths)
        (binds_of search.now.binds.now search.now.lengths.variables) id.0 }
{
    let sorts = &*search.sorts;
    let nodes = &*search.nodes;
    let binds = &*search.binds;
    lit_at(sorts, nodes, binds, search.lengths, id, kind)
}

fn lit_at_row(row: ResolvedSort, kind: LitKind) -> LitAt
    ensures { result ≡ lit_row kind row }
{
    match row {
        ResolvedSort::Primitive(sort) => lit_at_number(sort, kind),
        _ => LitAt::Other,
    }
}

// `0` is not positive, so a natural literal cannot be Pos, whose generality is 0.
// Its component is the generality, as where the place is free: a literal bound on one branch and free on another still
// compares consistently.
fn lit_at_number(sort: Sort, kind: LitKind) -> LitAt
    ensures { result ≡ lit_number (lit_component kind sort) }
{
    match number_generality(sort) {
        Some(generality) => match kind {
            LitKind::Positive => LitAt::Number(generality as u16),
            LitKind::Natural => {
                if generality == 0 {
                    return LitAt::Other;
                }
                LitAt::Number(generality as u16)
            }
        },
        None => LitAt::Other,
    }
}

// The container of a comprehension, interned, with the lengths then. What is interned is always there afterwards.
pub fn intern_container(
    sorts: &mut [u16],
    index: &mut [u16],
    lengths: Lengths,
    op: ComplexSort,
    element: SortId,
) -> (Result<SortId, NoRoom>, Lengths)
    requires fine { Checked sorts.old lengths.sorts lengths.entries × (element.0 < lengths.sorts) }
    requires indexed { Indexed sorts.old lengths.sorts index.old }
    ensures interned { InternsContainer op element.0 sorts.old lengths sorts.new result.1 result.0 }
    ensures indexed { OnOk result.0 (Indexed sorts.new result.1.sorts index.new) }
{
    let (id, counts) = generic_over(sorts, index, Counts::from(lengths), op, element);
    match id {
        Ok(id) => (Ok(id), lengths.with_counts(counts)),
        Err(no_room) => (Err(no_room), lengths),
    }
}

// The same in a search.
pub fn container_in_search(
    search: &mut Search<'_>,
    op: ComplexSort,
    element: SortId,
) -> Result<SortId, NoRoom>
    requires fine { Checked search.old.sorts.now search.old.lengths.sorts search.old.lengths.entries
        × (element.0 < search.old.lengths.sorts) }
    requires indexed { Indexes search.old }
    ensures interned { InternsContainer op element.0 search.old.sorts.now search.old.lengths
        search.new.sorts.now search.new.lengths result
        × OnlySorts search.old search.new }
    ensures indexed { IndexesOn result search.new }
{
    let counts = Counts::from(search.lengths);
    let words = &mut *search.sorts;
    let index = &mut *search.index;
    let (id, counts) = generic_over(words, index, counts, op, element);
    let id = id?;
    search.lengths = search.lengths.with_counts(counts);
    Ok(id)
}

// The places of a list as tries against another place, with the components 1, 2, 3.
fn listed_tries(listed: Listed, other: InferSortId, up: bool) -> Tries
    ensures { ListedTries up other.0 (places listed) result }
{
    let ids = listed.ids;
    Tries {
        ids: [ids[0], ids[1], ids[2], InferSortId(0)],
        count: listed.count as u16,
        other,
        up,
        first: 1,
    }
}

// The tries over an arena: see `widenings_of`.
fn widenings_in(
    arena: &mut Arena<'_>,
    binds: &[u16],
    lhs: InferSortId,
    rhs: InferSortId,
) -> Result<Option<Tries>, Full>
    requires ready { ReadyIn arena.old binds.now
        × PlacedIn arena.old lhs.0
        × PlacedIn arena.old rhs.0
        × SixThere arena.old.lengths }
    requires indexed { ArenaIndexes arena.old }
    ensures keeps { KeepsArena arena.old arena.new }
    ensures indexed { ArenaIndexesOn result arena.new }
    ensures finds { FindsWidenings arena.new.sorts.now arena.new.nodes.now arena.new.lengths result
        (widenings (binds_of binds.now arena.old.lengths.variables) lhs.0 rhs.0 (world arena.old)) }
{
    if let Some(wider) = arena.strict_super_sorts(binds, lhs)? {
        return Ok(Some(listed_tries(wider, rhs, true)));
    }
    let Some(narrower) = arena.strict_sub_sorts(binds, rhs)? else {
        return Ok(None);
    };
    Ok(Some(listed_tries(narrower, lhs, false)))
}

// The tries of a widening of `lhs` to `rhs` after that without one: each wider sort of `lhs` against `rhs`, nearest
// first; or, where `lhs` has no list, `lhs` against each narrower sort of `rhs`. An empty list is a list.
// So a concrete `lhs` is upcast, or a concrete `rhs` met from below; two free variables admit no enumeration.
// With the tries, how much of the lists is in use then.
// kept: the parts of a Search apart. Of an Arena made in `widenings_in_search` the lists are lost to every fact when the
// Search, which holds a ghost fact, is written again; with its lists in locals, or in a block, no proof is generated.
pub fn widenings_of(
    sorts: &mut [u16],
    index: &mut [u16],
    nodes: &mut [u16],
    binds: &[u16],
    lengths: Lengths,
    lhs: InferSortId,
    rhs: InferSortId,
) -> (Result<Option<Tries>, Full>, Lengths)
    requires ready { Ready sorts.old nodes.old binds.now lengths
        × Placed lengths lhs.0
        × Placed lengths rhs.0
        × SixThere lengths }
    requires indexed { Indexed sorts.old lengths.sorts index.old }
    ensures finds { FindsWidenings sorts.new nodes.new result.1 result.0
        (widenings (binds_of binds.now lengths.variables) lhs.0 rhs.0 (lent sorts.old nodes.old lengths)) }
    ensures indexed { OnOk result.0 (Indexed sorts.new result.1.sorts index.new) }
{
    let mut arena = Arena {
        sorts,
        index,
        nodes,
        lengths,
    };
    let tries = widenings_in(&mut arena, binds, lhs, rhs);
    (tries, arena.lengths)
}

// The same in a search.
pub fn widenings_in_search(
    search: &mut Search<'_>,
    lhs: InferSortId,
    rhs: InferSortId,
) -> Result<Option<Tries>, Full>
    requires ready { Ready search.old.sorts.now search.old.nodes.now search.old.binds.now search.old.lengths
        × Placed search.old.lengths lhs.0
        × Placed search.old.lengths rhs.0
        × SixThere search.old.lengths }
    requires indexed { Indexes search.old }
    ensures finds { FindsWidenings search.new.sorts.now search.new.nodes.now search.new.lengths result
        (widenings (binds_of search.old.binds.now search.old.lengths.variables) lhs.0 rhs.0
        (lent_of search.old))
        × KeepsRest search.old search.new
        × (search.new.scratch.now ≡ search.old.scratch.now) }
    ensures indexed { IndexesOn result search.new }
{
    let lengths = search.lengths;
    let sorts = &mut *search.sorts;
    let index = &mut *search.index;
    let nodes = &mut *search.nodes;
    let binds = &mut *search.binds;
    let (tries, lengths) = widenings_of(sorts, index, nodes, binds, lengths, lhs, rhs);
    search.lengths = lengths;
    tries
}
