ghost use Rattle.std.specs.Prelude.{◌≡◌, ◌<◌, ◌≢◌, ◌-◌, ◌+◌, length, slice_index, slice_set};
ghost use Rattle.link_arena.specs.Threads.{start_past, step_past, start_onto, step_onto};
ghost use Rattle.link_arena.specs.Lists.{nexts, previouses, owners};

/// One side of a row: the number of the list that it stands in, and its neighbours there.
#[derive(Clone, Copy)]
pub struct Half {
    pub owner: usize,
    pub next: usize,
    pub previous: usize,
}

/// A list of halves: its ends, and how many it has.
#[derive(Clone, Copy)]
pub struct Head {
    pub first: usize,
    pub last: usize,
    pub len: usize,
}

/// Writes a half's next one.
fn set_next(halves: &mut [Half], at: usize, next: usize)
    requires { at < length halves.old }
    ensures nexts { nexts halves.new ≡ slice_set (nexts halves.old) at next }
    ensures previouses { previouses halves.new ≡ previouses halves.old }
    ensures owners { owners halves.new ≡ owners halves.old }
{
    halves[at].next = next;
}

/// Writes a half's previous one.
fn set_previous(halves: &mut [Half], at: usize, previous: usize)
    requires { at < length halves.old }
    ensures nexts { nexts halves.new ≡ nexts halves.old }
    ensures previouses { previouses halves.new ≡ slice_set (previouses halves.old) at previous }
    ensures owners { owners halves.new ≡ owners halves.old }
{
    halves[at].previous = previous;
}

/// Writes the list that a half stands in.
fn set_owner(halves: &mut [Half], at: usize, owner: usize)
    requires { at < length halves.old }
    ensures nexts { nexts halves.new ≡ nexts halves.old }
    ensures previouses { previouses halves.new ≡ previouses halves.old }
    ensures owners { owners halves.new ≡ slice_set (owners halves.old) at owner }
{
    halves[at].owner = owner;
}

/// Makes the way ahead from a list's first half pass a half of it, before which another stands. Gives the first half then.
fn pass_ahead(halves: &mut [Half], first: usize, before: usize, at: usize) -> usize
    requires at { at < length halves.old }
    requires before { first ≢ at → before < length halves.old }
    ensures first { result ≡ start_past (nexts halves.old) first at }
    ensures nexts { nexts halves.new ≡ step_past (nexts halves.old) first before at }
    ensures previouses { previouses halves.new ≡ previouses halves.old }
    ensures owners { owners halves.new ≡ owners halves.old }
{
    let next = halves[at].next;
    if first == at {
        next
    } else {
        set_next(halves, before, next);
        first
    }
}

/// Makes the way back from a list's last half pass a half of it, after which another stands. Gives the last half then.
fn pass_back(halves: &mut [Half], last: usize, after: usize, at: usize) -> usize
    requires at { at < length halves.old }
    requires after { last ≢ at → after < length halves.old }
    ensures last { result ≡ start_past (previouses halves.old) last at }
    ensures nexts { nexts halves.new ≡ nexts halves.old }
    ensures previouses { previouses halves.new ≡ step_past (previouses halves.old) last after at }
    ensures owners { owners halves.new ≡ owners halves.old }
{
    let previous = halves[at].previous;
    if last == at {
        previous
    } else {
        set_previous(halves, after, previous);
        last
    }
}

/// Takes a half out of its list, and gives the list's head then.
pub(crate) fn take_out(halves: &mut [Half], head: Head, at: usize) -> Head
    requires at { at < length halves.old }
    requires before { head.first ≢ at → slice_index (previouses halves.old) at < length halves.old }
    requires after { head.last ≢ at → slice_index (nexts halves.old) at < length halves.old }
    requires some { 0 < head.len }
    ensures first { result.first ≡ start_past (nexts halves.old) head.first at }
    ensures last { result.last ≡ start_past (previouses halves.old) head.last at }
    ensures len { result.len ≡ head.len - 1 }
    ensures nexts { nexts halves.new ≡ step_past (nexts halves.old) head.first (slice_index (previouses halves.old) at) at }
    ensures previouses { previouses halves.new ≡ step_past (previouses halves.old) head.last (slice_index (nexts halves.old) at) at }
    ensures owners { owners halves.new ≡ owners halves.old }
{
    let half = halves[at];
    let first = pass_ahead(halves, head.first, half.previous, at);
    let last = pass_back(halves, head.last, half.next, at);
    Head {
        first,
        last,
        len: head.len - 1,
    }
}

/// Makes the way ahead lead on from a list's last half to one more. Gives the first half then.
fn lead_on(halves: &mut [Half], head: Head, at: usize) -> usize
    requires last { 0 < head.len → head.last < length halves.old }
    ensures first { result ≡ start_onto head.len head.first at }
    ensures nexts { nexts halves.new ≡ step_onto (nexts halves.old) head.len head.last at }
    ensures previouses { previouses halves.new ≡ previouses halves.old }
    ensures owners { owners halves.new ≡ owners halves.old }
{
    if head.len == 0 {
        at
    } else {
        set_next(halves, head.last, at);
        head.first
    }
}

/// Puts a half last in a list, and gives the list's head then.
fn put_last(halves: &mut [Half], head: Head, at: usize) -> Head
    requires at { at < length halves.old }
    requires last { 0 < head.len → head.last < length halves.old }
    requires room { head.len < length halves.old }
    ensures first { result.first ≡ start_onto head.len head.first at }
    ensures last { result.last ≡ at }
    ensures len { result.len ≡ head.len + 1 }
    ensures nexts { nexts halves.new ≡ step_onto (nexts halves.old) head.len head.last at }
    ensures previouses { previouses halves.new ≡ slice_set (previouses halves.old) at head.last }
    ensures owners { owners halves.new ≡ owners halves.old }
{
    let first = lead_on(halves, head, at);
    set_previous(halves, at, head.last);
    Head {
        first,
        last: at,
        len: head.len + 1,
    }
}

/// Puts a half last in the list of a number, and gives the list's head then.
pub(crate) fn put_in(halves: &mut [Half], head: Head, id: usize, at: usize) -> Head
    requires at { at < length halves.old }
    requires last { 0 < head.len → head.last < length halves.old }
    requires room { head.len < length halves.old }
    ensures first { result.first ≡ start_onto head.len head.first at }
    ensures last { result.last ≡ at }
    ensures len { result.len ≡ head.len + 1 }
    ensures nexts { nexts halves.new ≡ step_onto (nexts halves.old) head.len head.last at }
    ensures previouses { previouses halves.new ≡ slice_set (previouses halves.old) at head.last }
    ensures owners { owners halves.new ≡ slice_set (owners halves.old) at id }
{
    let put = put_last(halves, head, at);
    set_owner(halves, at, id);
    put
}
