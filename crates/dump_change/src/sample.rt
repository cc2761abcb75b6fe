// A stamp is closed: one frame is sampled where the clock rose.
ghost use Rattle.std.specs.Prelude.{◌≡◌, ◌+◌, ◌*◌, ◌≤◌, length};
ghost use Rattle.dump_change.specs.Change.{sample_from, rises, sampled, closed, closed_frames};

use crate::wave::{Wave, wave_at};

// The frame before the stamp becomes frame k.
fn sample(store: &[u64], frames: &mut [u32], k: usize)
    requires { (length store.now ≡ 8468) × (8 * k + 8 ≤ length frames.old) }
    ensures { frames.new ≡ sample_from store.now frames.old k 0 8 }
{
    for j in 0..8 {
        frames[8 * k + j] = (store[8458 + j] % 4294967296) as u32;
    }
}

// Whether the clock was 0 before the stamp's changes and is 1 now.
fn clock_rises(w: Wave, store: &[u64]) -> bool
    requires { length store.now ≡ 8468 }
    ensures { result ≡ rises w store.now }
{
    if w.stamped == 0 {
        return false;
    }
    if store[8467] != 0 {
        return false;
    }
    if store[8466] != 1 {
        return false;
    }
    true
}

fn with_frame(w: Wave) -> Wave
    requires { w.frames ≤ 65536 }
    ensures { result ≡ sampled w }
{
    Wave {
        frames: w.frames + 1,
        ..w
    }
}

// docs/CLAIMS.md names `close_stamp` with a contract over any slice of the store's length, so the length stays a clause and no array type carries it.
pub fn close_stamp(w: Wave, store: &[u64], frames: &mut [u32]) -> Wave
    requires { (length store.now ≡ 8468) × (length frames.old ≤ 524288) }
    ensures { (result ≡ closed w store.now frames.old) × (frames.new ≡ closed_frames w store.now frames.old) }
{
    if clock_rises(w, store) {
        if w.frames < (frames.len() / 8) as u64 {
            sample(store, frames, w.frames as usize);
            return with_frame(w);
        }
        return wave_at(w, 116);
    }
    w
}
