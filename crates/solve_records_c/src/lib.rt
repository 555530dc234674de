// The entry solve over records for C: the export of `solve_records`, with its clauses.
// A crate is a library of the repository or an archive for C, so the exports stand here, thinly over the crate that others use.
// kept: the export again, with its parameters apart, since C calls it so.
#![tactic(auto)]

ghost use Rattle.std.specs.Prelude.{◌≡◌, take};
ghost use Rattle.inference.specs.Constraints.{max_overloads};
ghost use Rattle.inference.specs.SolveEntry.{solve_entry};
ghost use Rattle.solve_checks.specs.Call.{call_of};
ghost use Rattle.solve_outputs.specs.Packed.{packed_solve, pack_solve_left};
ghost use Rattle.solve_entries.specs.Given.{given_of};
ghost use Rattle.solve_records.specs.Records.{record_words};

use solve_records::OverloadRecord;

#[unsafe(no_mangle)]
pub extern "C" fn sort_solve_records(
    sorts: &mut [u16],
    sort_count: usize,
    entry_count: usize,
    nodes: &mut [u16],
    node_count: usize,
    node_entry_count: usize,
    binds: &mut [u16],
    var_count: usize,
    exprs: &[u16],
    expr_count: usize,
    names: &[u16],
    name_count: usize,
    constraints: &[u16],
    constraint_count: usize,
    overloads: &[OverloadRecord],
    overload_count: usize,
    sources: &[u16],
    source_count: usize,
    default: u16,
    scratch: &mut [u16],
    index: &mut [u16],
    typing: &mut [u16],
    measure: &mut [u16],
    choices: &mut [u16],
) -> u64
    ensures { packed_solve result sorts.new nodes.new binds.new scratch.new index.new
        typing.new measure.new choices.new
        ≡ pack_solve_left (solve_entry (call_of (given_of sort_count entry_count node_count node_entry_count
        var_count expr_count name_count constraint_count overload_count source_count default)
        sorts.old nodes.old binds.old exprs.now
        names.now constraints.now
        (record_words (take max_overloads overloads.now)) sources.now
        scratch.old index.old typing.old measure.old choices.old)) }
{
    solve_records::sort_solve_records(
        sorts,
        sort_count,
        entry_count,
        nodes,
        node_count,
        node_entry_count,
        binds,
        var_count,
        exprs,
        expr_count,
        names,
        name_count,
        constraints,
        constraint_count,
        overloads,
        overload_count,
        sources,
        source_count,
        default,
        scratch,
        index,
        typing,
        measure,
        choices,
    )
}
