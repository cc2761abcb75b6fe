// The end of `$var`: its code is declared, for the first time or again.
ghost use Rattle.std.specs.Prelude.{◌≡◌, ◌≤◌, ◌<◌, length};
ghost use Rattle.dump_declare.specs.Declare.{sort_of, left_of, right_of, declare_again, declare_new, declared_head, declared_store, end_head, end_store};

use crate::head::{Head, at_command, at_place};
use dump_find::{bounded_count, find, slot_of};
use dump_words::{Keyword, Text, text_is};

// 0 bits with no range, 1 bits with one, 2 a real. It goes into a word of the store, which the C host hands over, so it is a number.
fn sort_of(h: Head) -> u64
    ensures { result ≡ sort_of h }
{
    if h.real == 1 {
        return 2;
    }
    if h.ends > 0 {
        return 1;
    }
    0
}

fn left_of(h: Head) -> u64
    ensures { result ≡ left_of h }
{
    if h.ends > 0 {
        return h.left;
    }
    if h.width == 0 {
        return 0;
    }
    h.width - 1
}

fn right_of(h: Head) -> u64
    ensures { result ≡ right_of h }
{
    if h.ends > 0 {
        return h.right;
    }
    0
}

// Only the first range that is given counts.
fn declare_again(h: Head, i: usize, store: &mut [u64])
    requires { (length store.old ≡ 8468) × (i < 1024) }
    ensures { store.new ≡ declare_again h i store.old }
{
    if store[2048 + i] != 0 {
        return;
    }
    if h.ends == 0 {
        return;
    }
    store[2048 + i] = 1;
    store[3072 + i] = h.left;
    store[4096 + i] = h.right;
}

fn declare_new(h: Head, n: usize, store: &mut [u64])
    requires { (length store.old ≡ 8468) × (n < 1024) }
    ensures { store.new ≡ declare_new h n store.old }
{
    let sort = sort_of(h);
    let left = left_of(h);
    let right = right_of(h);
    let s = slot_of(h.code);
    store[n] = h.code;
    store[1024 + n] = h.width;
    store[2048 + n] = sort;
    store[3072 + n] = left;
    store[4096 + n] = right;
    store[6144 + s] = n as u64;
}

fn declare(h: Head, store: &mut [u64]) -> Head
    requires { length store.old ≡ 8468 }
    ensures { (result ≡ declared_head h store.old) × (store.new ≡ declared_store h store.old) }
{
    let n = bounded_count(h.codes);
    let i = find(store, n, h.code);
    if i < n {
        declare_again(h, i, store);
        return at_command(0, h.depth, h.vars, h.codes);
    }
    if n >= 1024 {
        return at_place(h, 112);
    }
    declare_new(h, n, store);
    at_command(0, h.depth, h.vars, n as u64 + 1)
}

pub fn on_var_end(h: Head, t: Text, store: &mut [u64]) -> Head
    requires { length store.old ≡ 8468 }
    ensures { (result ≡ end_head h t store.old) × (store.new ≡ end_store h t store.old) }
{
    if text_is(t, Keyword::END) {
        if h.misfit == 0 {
            return declare(h, store);
        }
        return at_place(h, 110);
    }
    at_place(h, 110)
}
