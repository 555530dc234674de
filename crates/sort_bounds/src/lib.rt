// Join and meet of merc's resolved sorts. The join of two functions takes the meet of their arguments, and the meet their
// join, so one function makes both, with a direction. New sorts are appended; where the answer is none, what was made
// stays. New sorts enter the index.
#![tactic(auto)]

ghost use Rattle.std.specs.Prelude.{◌≡◌, ◌≤◌, true, false, not, OnErr};
ghost use Rattle.resolved_sort.specs.Order.{le_level};
ghost use Rattle.resolved_sort.specs.Rows.{left_at, Checked};
ghost use Rattle.resolved_sort.specs.Bounds.{Asked, bound_at};
ghost use Rattle.resolved_sort.specs.Index.{Indexed};
ghost use Rattle.sort_bounds.specs.Farther.{farther};

use resolved_sort::{ARGUMENT_WORDS, NoRoom, ResolvedSort, SortId};
use sort_interner::SortInterner;
use sort_order::Graded;

// Whether a level is equal to or before another in a direction.
fn reaches(up: bool, l: u8, m: u8) -> bool
    ensures { result ≡ le_level up l m }
{
    if up { l <= m } else { m <= l }
}

// What goes with the farther in the direction of two heads of a family: the Rust's join_op (up) and meet_op, and of two
// numbers the more or less general.
// None where neither is a widening of the other: a set and a bag, a List and any other, Bool and a number.
fn farther<H: Graded, T: Copy>(up: bool, lhs_head: H, rhs_head: H, lhs: T, rhs: T) -> Option<T>
    ensures { result ≡ farther H.family_of H.level_of up lhs_head rhs_head lhs rhs }
{
    if lhs_head.family() != rhs_head.family() {
        return None;
    }
    if reaches(up, lhs_head.level(), rhs_head.level()) {
        Some(rhs)
    } else {
        Some(lhs)
    }
}

// The least common supersort of two sorts.
// Commutative, associative and idempotent; sorts without a join are no error, only none. Sources need not convert into
// their join (see is_materializable): who binds something to it asks that of every source first.
#[cycle(join_meet)]
pub fn join(sorts: &mut SortInterner, lhs: SortId, rhs: SortId) -> Result<Option<SortId>, NoRoom>
    requires asked { Asked sorts.old.words.now sorts.old.counts.sorts sorts.old.counts.entries lhs.0 rhs.0 }
    requires indexed { Indexed sorts.old.words.now sorts.old.counts.sorts sorts.old.index.now }
    ensures same_reference { sorts.new.words.ghost_name ≡ sorts.old.words.ghost_name }
    ensures same_index { sorts.new.index.ghost_name ≡ sorts.old.index.ghost_name }
    ensures indexed { Indexed sorts.new.words.now sorts.new.counts.sorts sorts.new.index.now }
    ensures left { left_at sorts.new.words.now sorts.new.counts result
        ≡ bound_at true sorts.old.words.now sorts.old.counts.sorts sorts.old.counts.entries lhs.0 rhs.0 }
    ensures usable { OnErr result (Checked sorts.new.words.now sorts.new.counts.sorts sorts.new.counts.entries
        × (sorts.old.counts.sorts ≤ sorts.new.counts.sorts)
        × (sorts.old.counts.entries ≤ sorts.new.counts.entries)) }
{
    bound(sorts, true, lhs, rhs)
}

// The greatest common subsort of two sorts, the dual of join.
// Join itself needs it: the domain of a join is the meet of the two domains.
#[cycle(join_meet)]
pub fn meet(sorts: &mut SortInterner, lhs: SortId, rhs: SortId) -> Result<Option<SortId>, NoRoom>
    requires asked { Asked sorts.old.words.now sorts.old.counts.sorts sorts.old.counts.entries lhs.0 rhs.0 }
    requires indexed { Indexed sorts.old.words.now sorts.old.counts.sorts sorts.old.index.now }
    ensures same_reference { sorts.new.words.ghost_name ≡ sorts.old.words.ghost_name }
    ensures same_index { sorts.new.index.ghost_name ≡ sorts.old.index.ghost_name }
    ensures indexed { Indexed sorts.new.words.now sorts.new.counts.sorts sorts.new.index.now }
    ensures left { left_at sorts.new.words.now sorts.new.counts result
        ≡ bound_at false sorts.old.words.now sorts.old.counts.sorts sorts.old.counts.entries lhs.0 rhs.0 }
    ensures usable { OnErr result (Checked sorts.new.words.now sorts.new.counts.sorts sorts.new.counts.entries
        × (sorts.old.counts.sorts ≤ sorts.new.counts.sorts)
        × (sorts.old.counts.entries ≤ sorts.new.counts.entries)) }
{
    bound(sorts, false, lhs, rhs)
}

// Two arguments of functions whose join (up) or meet is asked: a domain is contravariant, so they go the other way.
// kept: join and meet are two and call each other, as document 01 names the form; bound does the work.
#[cycle(join_meet)]
fn against(
    sorts: &mut SortInterner,
    up: bool,
    lhs: SortId,
    rhs: SortId,
) -> Result<Option<SortId>, NoRoom>
    requires asked { Asked sorts.old.words.now sorts.old.counts.sorts sorts.old.counts.entries lhs.0 rhs.0 }
    requires indexed { Indexed sorts.old.words.now sorts.old.counts.sorts sorts.old.index.now }
    ensures same_reference { sorts.new.words.ghost_name ≡ sorts.old.words.ghost_name }
    ensures same_index { sorts.new.index.ghost_name ≡ sorts.old.index.ghost_name }
    ensures indexed { Indexed sorts.new.words.now sorts.new.counts.sorts sorts.new.index.now }
    ensures left { left_at sorts.new.words.now sorts.new.counts result
        ≡ bound_at (not up) sorts.old.words.now sorts.old.counts.sorts sorts.old.counts.entries lhs.0 rhs.0 }
    ensures usable { OnErr result (Checked sorts.new.words.now sorts.new.counts.sorts sorts.new.counts.entries
        × (sorts.old.counts.sorts ≤ sorts.new.counts.sorts)
        × (sorts.old.counts.entries ≤ sorts.new.counts.entries)) }
{
    if up {
        meet(sorts, lhs, rhs)
    } else {
        join(sorts, lhs, rhs)
    }
}

// Join (up) or meet of two sorts. Equal numbers are equal sorts, and make nothing.
// kept: `up` is a bool, as in the definitions: a Direction of two names would be turned into it in each contract.
#[cycle(join_meet)]
pub fn bound(
    sorts: &mut SortInterner,
    up: bool,
    lhs: SortId,
    rhs: SortId,
) -> Result<Option<SortId>, NoRoom>
    requires asked { Asked sorts.old.words.now sorts.old.counts.sorts sorts.old.counts.entries lhs.0 rhs.0 }
    requires indexed { Indexed sorts.old.words.now sorts.old.counts.sorts sorts.old.index.now }
    ensures same_reference { sorts.new.words.ghost_name ≡ sorts.old.words.ghost_name }
    ensures same_index { sorts.new.index.ghost_name ≡ sorts.old.index.ghost_name }
    ensures indexed { Indexed sorts.new.words.now sorts.new.counts.sorts sorts.new.index.now }
    ensures left { left_at sorts.new.words.now sorts.new.counts result
        ≡ bound_at up sorts.old.words.now sorts.old.counts.sorts sorts.old.counts.entries lhs.0 rhs.0 }
    ensures usable { OnErr result (Checked sorts.new.words.now sorts.new.counts.sorts sorts.new.counts.entries
        × (sorts.old.counts.sorts ≤ sorts.new.counts.sorts)
        × (sorts.old.counts.entries ≤ sorts.new.counts.entries)) }
{
    if lhs == rhs {
        return Ok(Some(lhs));
    }
    match (sorts.get(lhs), sorts.get(rhs)) {
        (ResolvedSort::Primitive(lhs_sort), ResolvedSort::Primitive(rhs_sort)) => {
            Ok(farther(up, lhs_sort, rhs_sort, lhs, rhs))
        }
        (
            ResolvedSort::Container {
                op: lhs_op,
                subsort: lhs_sub,
            },
            ResolvedSort::Container {
                op: rhs_op,
                subsort: rhs_sub,
            },
        ) => {
            let Some(op) = farther(up, lhs_op, rhs_op, lhs_op, rhs_op) else {
                return Ok(None);
            };
            let Some(subsort) = bound(sorts, up, lhs_sub, rhs_sub)? else {
                return Ok(None);
            };
            Ok(Some(sorts.generic(op, subsort)?))
        }
        (
            ResolvedSort::Function {
                domain: lhs_domain,
                range: lhs_range,
            },
            ResolvedSort::Function {
                domain: rhs_domain,
                range: rhs_range,
            },
        ) if lhs_domain.count == rhs_domain.count => {
            let mut domain = [SortId(0); ARGUMENT_WORDS];
            for k in 0..lhs_domain.count {
                // The domain is contravariant: the join's domain is the meet of the two domains, and the meet's their join.
                let lhs_arg = sorts.argument(lhs_domain, k);
                let rhs_arg = sorts.argument(rhs_domain, k);
                let Some(arg) = against(sorts, up, lhs_arg, rhs_arg)? else {
                    return Ok(None);
                };
                domain[k as usize] = arg;
            }
            let Some(range) = bound(sorts, up, lhs_range, rhs_range)? else {
                return Ok(None);
            };
            Ok(Some(sorts.function(&domain[..lhs_domain.count as usize], range)?))
        }
        _ => Ok(None),
    }
}
