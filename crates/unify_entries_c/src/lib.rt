// The entry unify for C: the export of `unify_entries`, with its clauses.
// A crate is a library of the repository or an archive for C, so the exports stand here, thinly over the crate that others use.
// kept: the export again, with its parameters apart, since C calls it so.
#![tactic(auto)]

ghost use Rattle.std.specs.Prelude.{◌≡◌};
ghost use Rattle.unification.specs.UnifyEntry.{unify_entry};
ghost use Rattle.unify_entries.specs.Packed.{packed_binds, pack_binds_left};

#[unsafe(no_mangle)]
pub extern "C" fn sort_unify(
    sorts: &[u16],
    sort_count: usize,
    entry_count: usize,
    nodes: &[u16],
    node_count: usize,
    node_entry_count: usize,
    binds: &mut [u16],
    var_count: usize,
    lhs: u16,
    rhs: u16,
) -> u64
    ensures { packed_binds binds.new result
        ≡ pack_binds_left (unify_entry sorts.now sort_count entry_count nodes.now
        node_count node_entry_count binds.old var_count lhs rhs) }
{
    unify_entries::sort_unify(
        sorts,
        sort_count,
        entry_count,
        nodes,
        node_count,
        node_entry_count,
        binds,
        var_count,
        lhs,
        rhs,
    )
}
