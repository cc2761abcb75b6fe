// The place of an identifier code among those declared. Codes stand in the first 1,024 words of a reader's store, and 2,048 words from word 6,144 on
// hold for some codes the place where they were put: a hint, which is checked, so that nothing has to be known of it.
#![tactic(auto)]

ghost use Rattle.std.specs.Prelude.{◌≡◌, ◌≤◌, ◌<◌, length, take};
ghost use Rattle.dump.specs.Declarations.{index_of};
ghost use Rattle.dump_find.specs.Find.{slot, bounded, lookup, hinted};

// Codes that count upwards, as simulators give them, have different slots.
pub fn slot_of(x: u64) -> usize
    ensures { (result ≡ slot x) × (result < 2048) }
{
    let a = x % 256;
    let b = (x >> 8) % 256;
    let c = (x >> 16) % 256;
    let d = (x >> 24) % 256;
    let sum = a + 94 * b + 61 * c + 1021 * d;
    (sum % 2048) as usize
}

// How many codes there are, at most 1,024.
pub fn bounded_count(n: u64) -> usize
    ensures { (result ≡ bounded n) × (result ≤ 1024) }
{
    if n < 1024 {
        return n as usize;
    }
    1024
}

// The first place of x among the first n codes, or n.
fn search(store: &[u64], n: usize, x: u64) -> usize
    requires { (length store.now ≡ 8468) × (n ≤ 1024) }
    ensures { result ≡ index_of (take n store.now) x }
{
    for i in 0..n {
        if store[i] == x {
            return i;
        }
    }
    n
}

// docs/CLAIMS.md names `find` with a contract over any slice of the store's length, so the length stays a clause and no array type carries it.
// A place of x among the first n codes, or n.
pub fn find(store: &[u64], n: usize, x: u64) -> usize
    requires { (length store.now ≡ 8468) × (n ≤ 1024) }
    ensures { result ≡ lookup store.now n x }
{
    let s = slot_of(x);
    let h = store[6144 + s];
    if h >= n as u64 {
        return search(store, n, x);
    }
    let i = h as usize;
    if store[i] == x {
        return i;
    }
    search(store, n, x)
}
