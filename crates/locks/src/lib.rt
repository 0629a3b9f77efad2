// Locks of requests: each has three places in a server's table of 1,024 marks, the lent tables' part of that server.
#![tactic(auto)]

ghost use Rattle.std.specs.Prelude.{◌≡◌, ◌<◌, length, replicate};
ghost use Rattle.locks.specs.Locks.{place_of, estimate_of, marked_at, marked_all, conflict, first_held};

// A lock that refuses a request, and its estimate.
#[derive(Clone, Copy)]
pub struct HeldLock {
    pub lock: u64,
    pub estimate: u64,
}

const FACTORS: [u64; 3] = [0x9E3779B97F4A7C15, 0xBF58476D1CE4E5B9, 0x94D049BB133111EB];

// Place j of lock k: the top ten bits of the product with factor j.
pub fn lock_place(k: u64, j: usize) -> usize
    requires { j < 3 }
    ensures { (result ≡ place_of k j) × (result < 1024) }
{
    (wrapping::product(k, FACTORS[j]) >> 54) as usize
}

// Three by name, here and in `mark_lock`: the least of three needs no start value.
pub fn estimate(table: &[u64], k: u64) -> u64
    requires { length table.now ≡ 1024 }
    ensures { result ≡ estimate_of table.now k }
{
    let p = lock_place(k, 0);
    let q = lock_place(k, 1);
    let r = lock_place(k, 2);
    table[p].min(table[q]).min(table[r])
}

// Whether a lock with this estimate refuses a client's mark. A client at the estimate knows all that wrote the lock. A function of
// its own: it is the one that tests 15 (docs/CHANGING.md).
fn refuses(estimate: u64, client: u64) -> bool
    ensures { result ≡ conflict estimate client }
{
    client < estimate
}

// The first of a request's locks that refuses it. None: the request passes.
pub fn first_held(table: &[u64], locks: &[u64], client: u64) -> Option<HeldLock>
    requires { length table.now ≡ 1024 }
    ensures { result ≡ first_held table.now locks.now client }
{
    for &lock in locks {
        let estimate = estimate(table, lock);
        if refuses(estimate, client) {
            return Some(HeldLock { lock, estimate });
        }
    }
    None
}

// The ID in a lock's three places.
fn mark_lock(table: &mut [u64], k: u64, id: u64)
    requires { length table.old ≡ 1024 }
    ensures { table.new ≡ marked_at table.old k id }
{
    let p = lock_place(k, 0);
    let q = lock_place(k, 1);
    let r = lock_place(k, 2);
    table[p] = id;
    table[q] = id;
    table[r] = id;
}

// The ID in the three places of each of a request's locks.
pub fn mark_all(table: &mut [u64], locks: &[u64], id: u64)
    requires { length table.old ≡ 1024 }
    ensures { table.new ≡ marked_all table.old locks.now id }
{
    for &k in locks {
        mark_lock(table, k, id);
    }
}

// A mark in every place: the table of a session that starts at it. By rows, which are copied with the widest stores there are; `fill` writes place by
// place, which an open is slower with (docs/DECISIONS.md, "Rows"). By index: tried over `chunks_exact_mut`, and the proof did not close, since no law of std's
// ties what such a loop writes to the slice.
pub fn fill_table(table: &mut [u64], mark: u64)
    requires { length table.old ≡ 1024 }
    ensures { table.new ≡ replicate 1024 mark }
{
    let row = [mark; 256];
    for i in 0..4 {
        let at = 256 * i;
        table[at..at + 256].copy_from_slice(&row);
    }
}
