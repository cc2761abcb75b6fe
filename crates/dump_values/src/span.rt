// A change of one wire: of each entry that is connected to it.
ghost use Rattle.std.specs.Prelude.{◌≡◌, ◌≤◌, ◌<◌, length};
ghost use Rattle.dump_values.specs.Values.{digit_of, change_entry, span_start, span_end, bits_changed};

use crate::put::put_value;

// The digit k places from the right of the first `count` ones; to the left of them 0, or the first one where that is unknown.
fn digit_of(digits: &[u8], count: usize, k: u64) -> u64
    requires { (0 < count) × (count ≤ length digits.now) }
    ensures { result ≡ digit_of digits.now count k }
{
    if k < count as u64 {
        return digits[count - 1 - k as usize] as u64;
    }
    if digits[0] < 2 {
        return 0;
    }
    digits[0] as u64
}

fn change_entry(store: &mut [u64], digits: &[u8], count: usize, x: u64, e: usize)
    requires { (length store.old ≡ 8468) × (0 < count) × (count ≤ length digits.now) × (e < 129) }
    ensures { store.new ≡ change_entry store.old digits.now count x e }
{
    if store[8192 + 2 * e] != x {
        return;
    }
    let k = store[8193 + 2 * e];
    let v = digit_of(digits, count, k);
    put_value(store, e, v);
}

// A code has one word of the store for the two ends of its span, and the store is laid out for the C host: so a span is a number.
fn span_start(span: u64) -> usize
    ensures { result ≡ span_start span }
{
    (span % 256) as usize
}

fn span_end(span: u64) -> usize
    ensures { (result ≡ span_end span) × (result ≤ 129) }
{
    let to = span / 256;
    if to < 129 {
        return to as usize;
    }
    129
}

// docs/CLAIMS.md names `change_bits` with a contract over any slice of the store's length, so the length stays a clause and no array type carries it.
// The wire with code x, declared at place i, has changed to the first `count` digits.
pub fn change_bits(store: &mut [u64], digits: &[u8], count: usize, x: u64, i: usize)
    requires { (length store.old ≡ 8468) × (0 < count) × (count ≤ length digits.now) × (i < 1024) }
    ensures { store.new ≡ bits_changed store.old digits.now count x i }
{
    let span = store[5120 + i];
    let from = span_start(span);
    let to = span_end(span);
    for e in from..to {
        change_entry(store, digits, count, x, e);
    }
}
