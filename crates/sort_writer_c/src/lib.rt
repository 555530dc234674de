// The writer of sorts for C: the export of `sort_writer`, with its clauses.
// A crate is a library of the repository or an archive for C, so the exports stand here, thinly over the crate that others use.
// kept: the export again, with its parameters apart, since C calls it so.
#![tactic(auto)]

ghost use Rattle.std.specs.Prelude.{◌≡◌};
ghost use Rattle.sort_text.specs.Writing.{writing};
ghost use Rattle.sort_writer.specs.Packed.{packed_write, pack_write_left};

#[unsafe(no_mangle)]
pub extern "C" fn sort_write(
    sorts: &[u16],
    sort_count: usize,
    entry_count: usize,
    id: u16,
    out: &mut [u8],
) -> u64
    ensures { packed_write out.new result
        ≡ pack_write_left (writing sorts.now sort_count entry_count id out.old) }
{
    sort_writer::sort_write(sorts, sort_count, entry_count, id, out)
}
