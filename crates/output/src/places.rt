// Where the parts of a snapshot (01's "end picture") begin, for its readers: the place is carried along from part to part (S-3).
ghost use Rattle.std.specs.Prelude.{◌≡◌, ◌+◌, ◌^◌, ◌≤◌, ◌<◌};
ghost use Rattle.output.specs.Finding.{waiting_in, part_at};

// How many messages wait at the node whose part begins at a place. A byte outside the snapshot reads 0.
pub fn waiting_in(snapshot: &[u8], place: usize) -> u8
    requires { place < 2 ^ 63 }
    ensures { result ≡ waiting_in snapshot.now place }
{
    snapshot.get(place + 9).copied().unwrap_or(0)
}

// Where the part behind that of node n begins, by the place of that one. A part has at most 10 + 5 * 255 bytes, by the byte that tells how
// many messages wait; no snapshot has 2^63 bytes. That the place is the one of node n stays a clause: both come from anyone, and a struct of
// them would have to hold the snapshot too.
pub fn next_part(snapshot: &[u8], place: usize, n: usize) -> usize
    requires place_value { place ≡ part_at snapshot.now n }
    requires place_bound { place < 2 ^ 63 }
    ensures value { result ≡ part_at snapshot.now (n + 1) }
    ensures upper_bound { result ≤ place + 1285 }
{
    let waiting = waiting_in(snapshot, place);
    place + 10 + 5 * usize::from(waiting)
}
