// The entries of the sorts layer. Each takes the lent sort storage and its counts, join and meet an index to find sorts by
// too, tests them itself, and has no `requires`: whatever a caller hands in, the answer, the storage and the index at exit
// are the defined ones.
#![tactic(auto)]

ghost use Rattle.std.specs.Prelude.{◌≡◌, true, false, Ok, Err, MatchResult, ◌+◌, ◌*◌, ◌<◌, ◌≤◌, length};
ghost use Rattle.resolved_sort.specs.Storage.{max_sorts, max_entries, full_length};
ghost use Rattle.resolved_sort.specs.Entries.{compared, measured, materialized};
ghost use Rattle.resolved_sort.specs.JoinMeet.{bounded, sorts_left};
ghost use Rattle.sort_entries.specs.Inner.Kept.{pair_tested, kept_or_given_back};
ghost use Rattle.sort_entries.specs.Packed.{pack_compared, pack_measured, pack_materialized, pack_bounded};
ghost use Rattle.sort_entries.specs.Packed.{packed_sorts, pack_sorts_left};

use entry_answers::{pack, pack_yes};
use resolved_sort::{Counts, NoRoom, Refusal, SLOTS, SORT_WORDS, SortId, Steps};
use sort_checks::test_sorts;
use sort_interner::{SortInterner, Sorts, clear_index, fill_index, give_back};
use std::cmp::Ordering;
use words::{BIT_8, BIT_16, BIT_24, BIT_32, BIT_48};

// Checks 1 to 4, 12 and 14 of a question about two sorts: the first that fails, or the list, which then has both.
// kept: a list with its counts apart, here and in the entries: a caller would make a struct of these same fields for one
// call.
fn test_pair(
    sorts: &[u16],
    sort_count: usize,
    entry_count: usize,
    lhs: SortId,
    rhs: SortId,
) -> Result<Sorts<'_>, Refusal>
    ensures { MatchResult result
        (λ pair. (pair.words.now ≡ sorts.now)
        × (Ok pair.counts ≡ pair_tested sorts.now sort_count entry_count lhs.0 rhs.0))
        (λ refusal. Err refusal ≡ pair_tested sorts.now sort_count entry_count lhs.0 rhs.0) }
{
    test_sorts(sorts, sort_count, entry_count)?;
    if sort_count <= (lhs.0 as usize) || sort_count <= (rhs.0 as usize) {
        return Err(Refusal::NotInList);
    }
    if sorts.len() < SORT_WORDS {
        return Err(Refusal::TooShort);
    }
    let counts = Counts {
        sorts: sort_count as u16,
        entries: entry_count as u16,
    };
    Ok(Sorts {
        words: sorts,
        counts,
    })
}

// The order of two sorts.
// kept: three entries of two lines: one over a closure would say of it in a contract what each of these says in its own.
// Ruled out: functions compared covariantly in their arguments; Bag below FBag; an answer about a
// list that fails a check.
pub fn partial_cmp(
    sorts: &[u16],
    sort_count: usize,
    entry_count: usize,
    lhs: SortId,
    rhs: SortId,
) -> Result<Option<Ordering>, Refusal>
    ensures { result ≡ compared sorts.now sort_count entry_count lhs.0 rhs.0 }
{
    let sorts = test_pair(sorts, sort_count, entry_count, lhs, rhs)?;
    Ok(sort_order::partial_cmp(&sorts, lhs, rhs))
}

// How far the first sort is below the second.
// Ruled out: the step from FSet to Set counted as interior; head and interior exchanged.
pub fn widening_distance(
    sorts: &[u16],
    sort_count: usize,
    entry_count: usize,
    from: SortId,
    to: SortId,
) -> Result<Option<Steps>, Refusal>
    ensures { result ≡ measured sorts.now sort_count entry_count from.0 to.0 }
{
    let sorts = test_pair(sorts, sort_count, entry_count, from, to)?;
    Ok(sort_order::widening_distance(&sorts, from, to))
}

// Whether the first sort converts into the second.
// Ruled out: yes for a container over another part; yes for a number into a narrower one.
pub fn is_materializable(
    sorts: &[u16],
    sort_count: usize,
    entry_count: usize,
    from: SortId,
    to: SortId,
) -> Result<bool, Refusal>
    ensures { result ≡ materialized sorts.now sort_count entry_count from.0 to.0 }
{
    let sorts = test_pair(sorts, sort_count, entry_count, from, to)?;
    Ok(sort_order::is_materializable(&sorts, from, to))
}

// What an entry answers after join or meet, which began with the counts given and left these: an answered one keeps what
// was made, one that ran out of room gives it back. The index is zero then.
#[tactic(auto, unfolding(crate::specs::Inner::Kept::kept_or_given_back))]
fn kept_or_given_back(
    sorts: &mut [u16],
    index: &mut [u16],
    given: Counts,
    left: Counts,
    bound: Result<Option<SortId>, NoRoom>,
) -> Result<(Option<SortId>, Counts), Refusal>
    requires { (given.sorts ≤ max_sorts)
        × (given.entries ≤ max_entries)
        × (full_length ≤ length sorts.old) }
    ensures { sorts_left sorts.new index.new result
        ≡ kept_or_given_back sorts.old index.old left given bound }
{
    clear_index(index);
    if bound.is_err() {
        give_back(sorts, given.sorts as usize, given.entries as usize);
    }
    Ok((bound?, left))
}

// Join (up) or meet of two sorts, as an entry.
// kept: the index tested here and not with the pair, since only an entry that makes sorts is lent one.
fn bound(
    sorts: &mut [u16],
    sort_count: usize,
    entry_count: usize,
    index: &mut [u16],
    up: bool,
    lhs: SortId,
    rhs: SortId,
) -> Result<(Option<SortId>, Counts), Refusal>
    ensures { sorts_left sorts.new index.new result
        ≡ bounded up sorts.old index.old sort_count entry_count lhs.0 rhs.0 }
{
    let counts = test_pair(sorts, sort_count, entry_count, lhs, rhs)?.counts;
    if index.len() < SLOTS {
        return Err(Refusal::TooShort);
    }
    fill_index(sorts, index, counts.sorts);
    let mut interner = SortInterner {
        words: sorts,
        index,
        counts,
    };
    let bound = sort_bounds::bound(&mut interner, up, lhs, rhs);
    let left = interner.counts;
    kept_or_given_back(sorts, index, counts, left, bound)
}

// The least common supersort of two sorts.
// Ruled out: the meet; an FSet for FSet and Set; sorts left behind after 15, or the index filled.
pub fn join(
    sorts: &mut [u16],
    sort_count: usize,
    entry_count: usize,
    index: &mut [u16],
    lhs: SortId,
    rhs: SortId,
) -> Result<(Option<SortId>, Counts), Refusal>
    ensures { sorts_left sorts.new index.new result
        ≡ bounded true sorts.old index.old sort_count entry_count lhs.0 rhs.0 }
{
    bound(sorts, sort_count, entry_count, index, true, lhs, rhs)
}

// The greatest common subsort of two sorts.
// Ruled out: functions with the meet of their arguments; sorts made on the way to none taken back.
pub fn meet(
    sorts: &mut [u16],
    sort_count: usize,
    entry_count: usize,
    index: &mut [u16],
    lhs: SortId,
    rhs: SortId,
) -> Result<(Option<SortId>, Counts), Refusal>
    ensures { sorts_left sorts.new index.new result
        ≡ bounded false sorts.old index.old sort_count entry_count lhs.0 rhs.0 }
{
    bound(sorts, sort_count, entry_count, index, false, lhs, rhs)
}

// The values of an answer in their fields, above a code of 0.
#[tactic(auto, unfolding(entry_answers::specs::Packing::packed, entry_answers::specs::Packing::in_fields))]
fn pack_order(order: Option<Ordering>) -> u64
    ensures { result ≡ pack_compared (Ok order) }
{
    match order {
        None => 0,
        Some(Ordering::Equal) => PACKED_EQUAL,
        Some(Ordering::Less) => PACKED_BELOW,
        Some(Ordering::Greater) => PACKED_ABOVE,
    }
}

#[tactic(auto, unfolding(entry_answers::specs::Packing::packed, entry_answers::specs::Packing::in_fields))]
fn pack_distance(steps: Option<Steps>) -> u64
    ensures { result ≡ pack_measured (Ok steps) }
{
    match steps {
        Some(Steps { head, interior }) => BIT_8
            + (head as u64) * BIT_16
            + (interior as u64) * BIT_24,
        None => 0,
    }
}

#[tactic(auto, unfolding(entry_answers::specs::Packing::packed, entry_answers::specs::Packing::in_fields))]
fn pack_bound(bound: (Option<SortId>, Counts)) -> u64
    ensures { result ≡ pack_bounded (Ok bound) }
{
    let (sort, counts) = bound;
    let id = match sort {
        Some(id) => BIT_8 + (id.0 as u64) * BIT_16,
        None => 0,
    };
    id + (counts.sorts as u64) * BIT_32 + (counts.entries as u64) * BIT_48
}

// The entries for callers in other languages: a slice is a pointer and a length, sorts are numbers,
// and the answer is packed.
// kept: an export for each entry, with its parameters apart, since C calls them so.
#[unsafe(no_mangle)]
pub extern "C" fn sort_partial_cmp(
    sorts: &[u16],
    sort_count: usize,
    entry_count: usize,
    lhs: u16,
    rhs: u16,
) -> u64
    ensures { result ≡ pack_compared (compared sorts.now sort_count entry_count lhs rhs) }
{
    pack(partial_cmp(sorts, sort_count, entry_count, SortId(lhs), SortId(rhs)).map(pack_order))
}

#[unsafe(no_mangle)]
pub extern "C" fn sort_widening_distance(
    sorts: &[u16],
    sort_count: usize,
    entry_count: usize,
    from: u16,
    to: u16,
) -> u64
    ensures { result ≡ pack_measured (measured sorts.now sort_count entry_count from to) }
{
    pack(widening_distance(sorts, sort_count, entry_count, SortId(from), SortId(to)).map(
        pack_distance,
    ))
}

#[unsafe(no_mangle)]
pub extern "C" fn sort_is_materializable(
    sorts: &[u16],
    sort_count: usize,
    entry_count: usize,
    from: u16,
    to: u16,
) -> u64
    ensures { result ≡ pack_materialized (materialized sorts.now sort_count entry_count from to) }
{
    pack(is_materializable(sorts, sort_count, entry_count, SortId(from), SortId(to)).map(pack_yes))
}

#[unsafe(no_mangle)]
pub extern "C" fn sort_join(
    sorts: &mut [u16],
    sort_count: usize,
    entry_count: usize,
    index: &mut [u16],
    lhs: u16,
    rhs: u16,
) -> u64
    ensures { packed_sorts sorts.new index.new result
        ≡ pack_sorts_left (bounded true sorts.old index.old sort_count entry_count lhs rhs) }
{
    pack(join(
        sorts,
        sort_count,
        entry_count,
        index,
        SortId(lhs),
        SortId(rhs),
    )
    .map(pack_bound))
}

#[unsafe(no_mangle)]
pub extern "C" fn sort_meet(
    sorts: &mut [u16],
    sort_count: usize,
    entry_count: usize,
    index: &mut [u16],
    lhs: u16,
    rhs: u16,
) -> u64
    ensures { packed_sorts sorts.new index.new result
        ≡ pack_sorts_left (bounded false sorts.old index.old sort_count entry_count lhs rhs) }
{
    pack(meet(
        sorts,
        sort_count,
        entry_count,
        index,
        SortId(lhs),
        SortId(rhs),
    )
    .map(pack_bound))
}

// The orders in bits 8 to 15 of a packed answer: 0 unrelated, 1 equal, 2 below, 3 above.
// kept: numbers, since C is handed the packed answer.
const PACKED_EQUAL: u64 = 256;

const PACKED_BELOW: u64 = 512;

const PACKED_ABOVE: u64 = 768;
