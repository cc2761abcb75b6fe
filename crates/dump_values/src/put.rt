// One value: 0, 1, or 2 for unknown.
ghost use Rattle.std.specs.Prelude.{◌≡◌, ◌<◌, length};
ghost use Rattle.dump_values.specs.Values.{with_bit, put_wire, put_at};

// The word x with bit i made b.
fn with_bit(x: u64, i: u64, b: u64) -> u64
    requires { i < 32 }
    ensures { result ≡ with_bit x i b }
{
    let one = 1 << i;
    let rest = x ^ (x & one);
    rest | (b << i)
}

// Wire i of the frame's word w: its value bit and its unknown bit.
fn put_wire(store: &mut [u64], w: usize, i: u64, v: u64)
    requires { (length store.old ≡ 8468) × (w < 4) × (i < 32) }
    ensures { store.new ≡ put_wire store.old w i v }
{
    let a = store[8450 + w];
    let b = store[8454 + w];
    let x = with_bit(a, i, v % 2);
    let y = with_bit(b, i, (v >> 1) % 2);
    store[8450 + w] = x;
    store[8454 + w] = y;
}

// The value of entry e: the clock is entry 0, and wire i of word w is entry 1 + 32 w + i.
pub fn put_value(store: &mut [u64], e: usize, v: u64)
    requires { (length store.old ≡ 8468) × (e < 129) }
    ensures { store.new ≡ put_at store.old e v }
{
    if e == 0 {
        store[8466] = v;
        return;
    }
    let w = (e - 1) / 32;
    let i = (e - 1) % 32;
    put_wire(store, w, i as u64, v);
}
