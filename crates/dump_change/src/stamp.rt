// A stamp of the dump.
ghost use Rattle.std.specs.Prelude.{◌≡◌, ◌≤◌, length};
ghost use Rattle.dump_change.specs.Change.{open_from, opened, order_number, stamp_order, stamped_at, next_wave, next_store, next_frames, stamp_wave, stamp_store, stamp_frames, on_stamp, on_stamp_store, on_stamp_frames};

use crate::sample::close_stamp;
use crate::wave::{Wave, wave_at};
use dump_words::Number;

// What the values are now is what they were before the stamp that begins.
fn open_stamp(store: &mut [u64])
    requires { length store.old ≡ 8468 }
    ensures { store.new ≡ opened store.old }
{
    for j in 0..8 {
        store[8458 + j] = store[8450 + j];
    }
    store[8467] = store[8466];
}

// How a stamp stands to the one before.
#[derive(Clone, Copy)]
pub enum StampOrder {
    // It is greater, or the first.
    Next,
    Equal,
    Back,
}

fn stamp_order(w: Wave, v: u64) -> StampOrder
    ensures { order_number result ≡ stamp_order w v }
{
    if w.stamped == 0 {
        return StampOrder::Next;
    }
    if v < w.stamp {
        return StampOrder::Back;
    }
    if v == w.stamp {
        return StampOrder::Equal;
    }
    StampOrder::Next
}

fn with_stamp(w: Wave, v: u64) -> Wave
    ensures { result ≡ stamped_at w v }
{
    Wave {
        place: 20,
        stamped: 1,
        stamp: v,
        ..w
    }
}

// A greater stamp closes the one before and opens its own.
fn next_stamp(w: Wave, v: u64, store: &mut [u64], frames: &mut [u32]) -> Wave
    requires { (length store.old ≡ 8468) × (length frames.old ≤ 524288) }
    ensures { (result ≡ next_wave w v store.old frames.old) × (store.new ≡ next_store w store.old frames.old) × (frames.new ≡ next_frames w store.old frames.old) }
{
    let r = close_stamp(w, store, frames);
    if r.place == 116 {
        return r;
    }
    open_stamp(store);
    with_stamp(r, v)
}

fn stamp_at(w: Wave, v: u64, store: &mut [u64], frames: &mut [u32]) -> Wave
    requires { (length store.old ≡ 8468) × (length frames.old ≤ 524288) }
    ensures { (result ≡ stamp_wave w v store.old frames.old) × (store.new ≡ stamp_store w v store.old frames.old) × (frames.new ≡ stamp_frames w v store.old frames.old) }
{
    match stamp_order(w, v) {
        StampOrder::Next => next_stamp(w, v, store, frames),
        StampOrder::Equal => w,
        StampOrder::Back => wave_at(w, 114),
    }
}

pub fn on_stamp(w: Wave, n: Number, store: &mut [u64], frames: &mut [u32]) -> Wave
    requires { (length store.old ≡ 8468) × (length frames.old ≤ 524288) }
    ensures { (result ≡ on_stamp w n store.old frames.old) × (store.new ≡ on_stamp_store w n store.old frames.old) × (frames.new ≡ on_stamp_frames w n store.old frames.old) }
{
    if w.dumping != 0 {
        return wave_at(w, 110);
    }
    if n.state != 1 {
        return wave_at(w, 110);
    }
    stamp_at(w, n.value, store, frames)
}
