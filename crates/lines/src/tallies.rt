// The lines of a tally (S-12). The counts of node n are read by their place, 4 n, as the definitions read them: by chunks, a proof would
// have to say where each one lies.
ghost use Rattle.std.specs.Prelude.{◌+◌, ◌*◌, ◌≤◌, length};
ghost use Rattle.writing.specs.Writing.{Writes};
ghost use Rattle.lines.specs.Lines.{tally_lines_in};

use text::put_line;

// Puts the line of each of the first nodes, whose counts stand in an array, four a node: number, started, received, taken, waiting.
pub fn put_tally_lines(text: &mut [u8], at: usize, counts: &[u64], nodes: usize) -> usize
    requires nodes_in_bounds { 4 * nodes ≤ length counts.now }
    requires nodes_in_bounds_2 { at + length (tally_lines_in counts.now nodes) ≤ length text.old }
    ensures { Writes (tally_lines_in counts.now nodes) text.old at text.new result }
{
    let mut next = at;
    for n in 0..nodes {
        let first = 4 * n;
        let numbers = [
            n as u64,
            counts[first],
            counts[first + 1],
            counts[first + 2],
            counts[first + 3],
        ];
        next = put_line(text, next, b"tally", &numbers);
    }
    next
}
