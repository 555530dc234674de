// The entries of the sorts layer for C: the exports of `sort_entries`, each with its clauses.
// A crate is a library of the repository or an archive for C, so the exports stand here, thinly over the crate that others use.
// kept: each export again, with its parameters apart, since C calls them so.
#![tactic(auto)]

ghost use Rattle.std.specs.Prelude.{◌≡◌, true, false};
ghost use Rattle.resolved_sort.specs.Entries.{compared, measured, materialized};
ghost use Rattle.resolved_sort.specs.JoinMeet.{bounded};
ghost use Rattle.sort_entries.specs.Packed.{pack_compared, pack_measured, pack_materialized};
ghost use Rattle.sort_entries.specs.Packed.{packed_sorts, pack_sorts_left};

#[unsafe(no_mangle)]
pub extern "C" fn sort_partial_cmp(
    sorts: &[u16],
    sort_count: usize,
    entry_count: usize,
    lhs: u16,
    rhs: u16,
) -> u64
    ensures { result ≡ pack_compared (compared sorts.now sort_count entry_count lhs rhs) }
{
    sort_entries::sort_partial_cmp(sorts, sort_count, entry_count, lhs, rhs)
}

#[unsafe(no_mangle)]
pub extern "C" fn sort_widening_distance(
    sorts: &[u16],
    sort_count: usize,
    entry_count: usize,
    from: u16,
    to: u16,
) -> u64
    ensures { result ≡ pack_measured (measured sorts.now sort_count entry_count from to) }
{
    sort_entries::sort_widening_distance(sorts, sort_count, entry_count, from, to)
}

#[unsafe(no_mangle)]
pub extern "C" fn sort_is_materializable(
    sorts: &[u16],
    sort_count: usize,
    entry_count: usize,
    from: u16,
    to: u16,
) -> u64
    ensures { result ≡ pack_materialized (materialized sorts.now sort_count entry_count from to) }
{
    sort_entries::sort_is_materializable(sorts, sort_count, entry_count, from, to)
}

#[unsafe(no_mangle)]
pub extern "C" fn sort_join(
    sorts: &mut [u16],
    sort_count: usize,
    entry_count: usize,
    index: &mut [u16],
    lhs: u16,
    rhs: u16,
) -> u64
    ensures { packed_sorts sorts.new index.new result
        ≡ pack_sorts_left (bounded true sorts.old index.old sort_count entry_count lhs rhs) }
{
    sort_entries::sort_join(sorts, sort_count, entry_count, index, lhs, rhs)
}

#[unsafe(no_mangle)]
pub extern "C" fn sort_meet(
    sorts: &mut [u16],
    sort_count: usize,
    entry_count: usize,
    index: &mut [u16],
    lhs: u16,
    rhs: u16,
) -> u64
    ensures { packed_sorts sorts.new index.new result
        ≡ pack_sorts_left (bounded false sorts.old index.old sort_count entry_count lhs rhs) }
{
    sort_entries::sort_meet(sorts, sort_count, entry_count, index, lhs, rhs)
}
