// The sorts of places and the sort on which the sources of a Join agree: from merc's inference.rs, the first half of
// solve_join. The sources are resolved and joined from left to right. Where one has no sort or two
// have no join the answer is none, and what was made stays.
#![tactic(auto)]

ghost use Rattle.std.specs.Prelude.{◌≡◌, true, List, ℕ, ◌∷◌, ◌+◌, ◌<◌, ◌≤◌, length};
ghost use Rattle.std.proofs.lemmas.List.Edits.{sets};
ghost use Rattle.resolved_sort.specs.Order.{distance};
ghost use Rattle.resolved_sort.specs.Entries.{tree_at};
ghost use Rattle.resolved_sort.specs.Rows.{AllBelow, left_at};
ghost use Rattle.resolved_sort.specs.Bounds.{Asked, bound_at};
ghost use Rattle.resolved_sort.specs.Index.{Indexed};
ghost use Rattle.resolved_sort.specs.Inner.Storage.{sort_numbers};
ghost use Rattle.std.specs.Prelude.{None};
ghost use Rattle.unification.specs.Nodes.{binds_of};
ghost use Rattle.unification.specs.Checked.{Ready, Placed};
ghost use Rattle.unification.specs.Resolve.{DefaultBelow, term_resolved, with_counts};
ghost use Rattle.unification.specs.Inner.Resolve.{value_in};
ghost use Rattle.unification.specs.Related.{each};
ghost use Rattle.unification.specs.Making.{Lent};
ghost use Rattle.unification.specs.Inner.Making.{lent};
ghost use Rattle.inference.specs.Constraints.{max_components, rows_from};
ghost use Rattle.inference.specs.Search.{resolve_in, join_in, resolve_all, join_all, head_steps, all_into};
ghost use Rattle.inference.specs.Search.{agreed as agreedOn, join_of};
ghost use Rattle.search_state.specs.Inner.Memory.{source_at, measure_at};
ghost use Rattle.search_state.specs.Inner.Leaves.{made_of, extracted_of, AgreesOn};
ghost use Rattle.search_state.specs.Inner.Solving.{Agreeing, KeepsRest, OnlySorts, lent_of, Indexes, IndexesOn};
ghost use Rattle.search_join.specs.Inner.Sources.{Sources, Resolved, HasSorts};

use inference::MAX_SOURCES;
use problem_words::source_at;
use resolved_sort::{Counts, NoRoom, Run, SortId};
use resolver::Resolver;
use search_state::{Branch, MEASURE_AT, Search};
use sort_bounds::join;
use sort_interner::{SortInterner, Sorts};
use sort_order::{is_materializable, widening_distance};
use unification::InferSortId;
use words::put;

// The sort of a place, from sorts and their index apart, with the counts then.
// kept: the slices of a Search apart: of an interner made of two of them, where that Search is written again, no proof
// is generated.
fn sort_over(
    resolver: &Resolver<'_>,
    words: &mut [u16],
    index: &mut [u16],
    counts: Counts,
    id: InferSortId,
) -> (Result<Option<SortId>, NoRoom>, Counts)
    requires ready { Ready words.old resolver.now.nodes.now resolver.now.binds.now
        (with_counts resolver.now.lengths counts)
        × DefaultBelow counts.sorts resolver.now.default
        × Placed (with_counts resolver.now.lengths counts) id.0 }
    requires indexed { Indexed words.old counts.sorts index.old }
    ensures indexed { Indexed words.new result.1.sorts index.new }
    ensures resolved { left_at words.new result.1 result.0
        ≡ term_resolved words.old (with_counts resolver.now.lengths counts) resolver.now.default
        (value_in words.old resolver.now.nodes.now resolver.now.binds.now
        (with_counts resolver.now.lengths counts) id.0) }
{
    let mut interner = SortInterner {
        words,
        index,
        counts,
    };
    let sort = resolver.resolve(&mut interner, id);
    (sort, interner.counts)
}

// The sort of a place, where the default stands for a variable that is free. Nothing where one is and there is no
// default.
pub fn sort_of(
    search: &mut Search<'_>,
    default: Option<SortId>,
    id: InferSortId,
) -> Result<Option<SortId>, NoRoom>
    requires ready { Ready search.old.sorts.now search.old.nodes.now search.old.binds.now search.old.lengths
        × DefaultBelow search.old.lengths.sorts default
        × Placed search.old.lengths id.0 }
    requires indexed { Indexes search.old }
    ensures resolved { (made_of search.new.sorts.now search.old.nodes.now search.new.lengths result
        ≡ resolve_in default (binds_of search.old.binds.now search.old.lengths.variables) id.0
        (lent_of search.old))
        × OnlySorts search.old search.new }
    ensures indexed { IndexesOn result search.new }
{
    let lengths = search.lengths;
    let counts = Counts::from(lengths);
    let words = &mut *search.sorts;
    let index = &mut *search.index;
    let nodes = &mut *search.nodes;
    let binds = &mut *search.binds;
    let resolver = Resolver {
        nodes,
        binds,
        lengths,
        default,
    };
    let (sort, counts) = sort_over(&resolver, words, index, counts, id);
    let sort = sort?;
    search.lengths = lengths.with_counts(counts);
    Ok(sort)
}

// The join of two sorts, from sorts and their index apart, with the counts then.
// kept: the slices of a Search apart, as in sort_over.
fn join_over(
    words: &mut [u16],
    index: &mut [u16],
    counts: Counts,
    lhs: SortId,
    rhs: SortId,
) -> (Result<Option<SortId>, NoRoom>, Counts)
    requires asked { Asked words.old counts.sorts counts.entries lhs.0 rhs.0 }
    requires indexed { Indexed words.old counts.sorts index.old }
    ensures indexed { Indexed words.new result.1.sorts index.new }
    ensures left { left_at words.new result.1 result.0
        ≡ bound_at true words.old counts.sorts counts.entries lhs.0 rhs.0 }
{
    let mut interner = SortInterner {
        words,
        index,
        counts,
    };
    let sort = join(&mut interner, lhs, rhs);
    (sort, interner.counts)
}

// The join of two sorts. It does not look at nodes, whatever they are.
// kept: beside sort_of and container_in_search: one function over a closure would ask, for each of resolve, join and
// generic, that the closure answers by that definition from the words and counts that it is given, whatever they are.
fn join_of(search: &mut Search<'_>, lhs: SortId, rhs: SortId) -> Result<Option<SortId>, NoRoom>
    requires asked { Asked search.old.sorts.now search.old.lengths.sorts search.old.lengths.entries lhs.0
        rhs.0 }
    requires indexed { Indexes search.old }
    ensures joined { ((ns : List ℕ)
        → made_of search.new.sorts.now ns search.new.lengths result
        ≡ join_in lhs.0 rhs.0 (lent search.old.sorts.now ns search.old.lengths))
        × OnlySorts search.old search.new }
    ensures indexed { IndexesOn result search.new }
{
    let counts = Counts::from(search.lengths);
    let words = &mut *search.sorts;
    let index = &mut *search.index;
    let (sort, counts) = join_over(words, index, counts, lhs, rhs);
    let sort = sort?;
    search.lengths = search.lengths.with_counts(counts);
    Ok(sort)
}

// The sorts of the sources, up to the first that has none. Answers whether all have one.
fn resolve_sources(
    search: &mut Search<'_>,
    sources: Run,
    ids: &mut [SortId],
) -> Result<bool, NoRoom>
    requires sources { Sources search.old.sorts.now search.old.nodes.now search.old.binds.now search.old.lists.now
        (sort_numbers ids.old) search.old.lengths sources }
    requires indexed { Indexes search.old }
    ensures resolved { (extracted_of search.new.sorts.now search.old.nodes.now (sort_numbers ids.new) 0 sources.count
        search.new.lengths result
        ≡ resolve_all None (binds_of search.old.binds.now search.old.lengths.variables)
        (rows_from (source_at search.old.lists.now) sources.start sources.count)
        (lent_of search.old))
        × OnlySorts search.old search.new }
    ensures indexed { IndexesOn result search.new }
{
    for i in 0..sources.count {
        let source = source_at(search.lists, sources.start + i);
        let Some(sort) = sort_of(search, None, source)? else {
            return Ok(false);
        };
        ids[i as usize] = sort;
    }
    Ok(true)
}

// The join of a sort and the rest, from left to right.
// Two sorts may have no join (unequal element sorts, say): then widening one source after another decides.
fn join_all(
    search: &mut Search<'_>,
    first: SortId,
    rest: &[SortId],
) -> Result<Option<SortId>, NoRoom>
    requires resolved { Resolved search.old.sorts.now search.old.lengths (first.0 ∷ sort_numbers rest.now) }
    requires indexed { Indexes search.old }
    ensures joined { ((ns : List ℕ)
        → made_of search.new.sorts.now ns search.new.lengths result
        ≡ join_all first.0 (sort_numbers rest.now) (lent search.old.sorts.now ns search.old.lengths))
        × OnlySorts search.old search.new }
    ensures indexed { IndexesOn result search.new }
{
    let mut lub = first;
    for id in rest {
        let Some(joined) = join_of(search, lub, *id)? else {
            return Ok(None);
        };
        lub = joined;
    }
    Ok(Some(lub))
}

// Whether each of the sorts is equal to or materializable into their join.
// The order, and join with it, also relates sorts that merc's lowering cannot materialize: containers by their
// elements, functions by their arguments. A join that is reached only so is left to the widenings, which offer only
// what converts.
// kept: a loop, tried as `all`: what that asks before it runs, that each sort it may hand on is below the count, was not
// shown for the items of the slice.
fn all_materializable(sorts: &Sorts, ids: &[SortId], lub: SortId) -> bool
    requires { AllBelow sorts.now.counts.sorts (sort_numbers ids.now)
        × (lub.0 < sorts.now.counts.sorts) }
    ensures { (W : Lent)
        → HasSorts W sorts.now → result ≡ all_into W lub.0 (sort_numbers ids.now) }
{
    for id in ids {
        if !is_materializable(sorts, *id, lub) {
            return false;
        }
    }
    true
}

// The head distance of one sort to another.
fn head_distance(sorts: &Sorts, from: SortId, to: SortId) -> u16
    requires { (from.0 < sorts.now.counts.sorts) × (to.0 < sorts.now.counts.sorts) }
    ensures { result
        ≡ head_steps (distance true (tree_at sorts.now.words.now sorts.now.counts.sorts from.0)
        (tree_at sorts.now.words.now sorts.now.counts.sorts to.0)) }
{
    widening_distance(sorts, from, to).map_or(0, |steps| u16::from(steps.head))
}

// The head distances of the sorts to their join, as components after the measure.
// One component for each source, as in solve_widening, so that the ranking is that of the Subs which the Join replaces.
// Functions are the exception: their head distance is 0, where a widening counts the steps of the range.
fn put_heads(sorts: &Sorts, ids: &[SortId], lub: SortId, scratch: &mut [u16], measure: u16)
    requires { AllBelow sorts.now.counts.sorts (sort_numbers ids.now)
        × (lub.0 < sorts.now.counts.sorts)
        × (length ids.now ≤ max_components) }
    ensures { scratch.new
        ≡ sets scratch.old (measure_at + measure)
        (each (λ s. head_steps (distance true (tree_at sorts.now.words.now sorts.now.counts.sorts s)
        (tree_at sorts.now.words.now sorts.now.counts.sorts lub.0)))
        (sort_numbers ids.now)) }
{
    let from = MEASURE_AT + (measure as usize);
    for (i, id) in ids.iter().enumerate() {
        put(scratch, from + i, head_distance(sorts, *id, lub));
    }
}

// The sort on which sorts agree, with the components that it costs.
fn agreement(search: &mut Search<'_>, ids: &[SortId], at: Branch) -> Result<Option<SortId>, NoRoom>
    requires resolved { Resolved search.old.sorts.now search.old.lengths (sort_numbers ids.now)
        × (at.measure + length ids.now ≤ max_components) }
    requires indexed { Indexes search.old }
    ensures agrees { ((ns : List ℕ)
        → AgreesOn ns search.old.scratch.now at (length ids.now)
        (agreedOn (sort_numbers ids.now) (lent search.old.sorts.now ns search.old.lengths))
        search.new.sorts.now search.new.scratch.now search.new.lengths result)
        × KeepsRest search.old search.new
        × (search.new.nodes.now ≡ search.old.nodes.now) }
    ensures indexed { IndexesOn result search.new }
{
    let Some((first, rest)) = ids.split_first() else {
        return Ok(None);
    };
    let Some(lub) = join_all(search, *first, rest)? else {
        return Ok(None);
    };
    let counts = Counts::from(search.lengths);
    let words = &mut *search.sorts;
    let sorts = Sorts { words, counts };
    if !all_materializable(&sorts, ids, lub) {
        return Ok(None);
    }
    put_heads(&sorts, ids, lub, search.scratch, at.measure);
    Ok(Some(lub))
}

// The sort on which the sources of a Join agree. Their head distances are written after the measure, as components.
pub fn agreed(search: &mut Search<'_>, at: Branch, sources: Run) -> Result<Option<SortId>, NoRoom>
    requires agreeing { Agreeing search.old at sources }
    requires indexed { Indexes search.old }
    ensures agrees { AgreesOn search.old.nodes.now search.old.scratch.now at sources.count
        (join_of (binds_of search.old.binds.now search.old.lengths.variables)
        (rows_from (source_at search.old.lists.now) sources.start sources.count)
        (lent_of search.old))
        search.new.sorts.now search.new.scratch.now search.new.lengths result
        × KeepsRest search.old search.new
        × (search.new.nodes.now ≡ search.old.nodes.now) }
    ensures indexed { IndexesOn result search.new }
{
    let mut ids = [SortId(0); MAX_SOURCES];
    if !resolve_sources(search, sources, &mut ids)? {
        return Ok(None);
    }
    agreement(search, &ids[..sources.count as usize], at)
}
