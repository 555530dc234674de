// A line held in a lent memory as its bytes come. Of a long line only its first bytes are held.
#![tactic(auto)]

ghost use Rattle.std.specs.Prelude.{◌≡◌, ◌+◌, ◌≤◌, length};
ghost use Rattle.held_line.specs.Holding.{line_kept, held_at};

// One byte more of the line that starts at `start`, of which at most `most` bytes are held; how many are held then.
// kept: a test and a store are two lines; an Out made for one byte is no plainer.
pub fn hold(memory: &mut [u8], most: usize, start: usize, count: usize, byte: u8) -> usize
    requires { start + most ≤ length memory.old }
    ensures { line_kept memory.new result ≡ held_at most memory.old start count byte }
{
    if count < most {
        memory[start + count] = byte;
        return count + 1;
    }
    count
}
