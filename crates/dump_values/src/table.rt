// The end of the declarations: the table is tested, and each entry of it connected.
ghost use Rattle.std.specs.Prelude.{◌≡◌, ◌&&◌, ◌≤◌, ◌<◌, length};
ghost use Rattle.dump_values.specs.Values.{is_between_ends, good_entry, good_from, table_good, apart, span_with, connected_entry, connect_entry, connect_from};

use crate::put::put_value;
use dump_find::find;

// Whether an index lies between two ends, these included.
fn between(k: u64, left: u64, right: u64) -> bool
    ensures { result ≡ is_between_ends k left right }
{
    if left < right {
        if k < left {
            return false;
        }
        return k <= right;
    }
    if k < right {
        return false;
    }
    k <= left
}

// Whether entry e is not connected, or good: its code is declared as bits, and its index lies within that code's range.
fn good_entry(store: &[u64], n: usize, e: usize) -> bool
    requires { (length store.now ≡ 8468) × (n ≤ 1024) × (e < 129) }
    ensures { result ≡ good_entry store.now n e }
{
    let x = store[8192 + 2 * e];
    if x == 0 {
        return true;
    }
    let i = find(store, n, x);
    if i >= n {
        return false;
    }
    if store[2048 + i] == 2 {
        return false;
    }
    between(store[8193 + 2 * e], store[3072 + i], store[4096 + i])
}

// docs/CLAIMS.md names `table_good` with a contract over any slice of the store's length, so the length stays a clause and no array type carries it.
// Whether the clock is connected, and every entry is good where it is.
pub fn table_good(store: &[u64], n: usize) -> bool
    requires { (length store.now ≡ 8468) × (n ≤ 1024) }
    ensures { result ≡ table_good store.now n }
{
    if store[8192] == 0 {
        return false;
    }
    for e in 0..129 {
        if !good_entry(store, n, e) {
            return false;
        }
    }
    true
}

fn distance_of(a: u64, b: u64) -> u64
    ensures { result ≡ apart a b }
{
    if a < b {
        return b - a;
    }
    a - b
}

// A span with one more entry, which is above those in it.
fn span_with(span: u64, e: usize) -> u64
    requires { e < 129 }
    ensures { result ≡ span_with span e }
{
    let to = 256 * (e as u64 + 1);
    if span == 0 {
        return e as u64 + to;
    }
    span % 256 + to
}

// Entry e, whose code was found at place i.
fn connected_entry(store: &mut [u64], e: usize, i: usize)
    requires { (length store.old ≡ 8468) × (e < 129) × (i < 1024) }
    ensures { store.new ≡ connected_entry store.old e i }
{
    let place = distance_of(store[8193 + 2 * e], store[4096 + i]);
    let span = span_with(store[5120 + i], e);
    store[8193 + 2 * e] = place;
    store[5120 + i] = span;
    put_value(store, e, 2);
}

fn connect_entry(store: &mut [u64], n: usize, e: usize)
    requires { (length store.old ≡ 8468) × (n ≤ 1024) × (e < 129) }
    ensures { store.new ≡ connect_entry store.old n e }
{
    let x = store[8192 + 2 * e];
    if x == 0 {
        return;
    }
    let i = find(store, n, x);
    if i >= n {
        return;
    }
    connected_entry(store, e, i);
}

// docs/CLAIMS.md names `connect` with a contract over any slice of the store's length, so the length stays a clause and no array type carries it.
// Every entry, in order: the place of its digit, its span, and that it has no value yet.
pub fn connect(store: &mut [u64], n: usize)
    requires { (length store.old ≡ 8468) × (n ≤ 1024) }
    ensures { store.new ≡ connect_from store.old n 0 129 }
{
    for e in 0..129 {
        connect_entry(store, n, e);
    }
}
