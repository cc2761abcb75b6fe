// Entries of the table of connections: 129 pairs of a code and an index, one word behind the other, as the C host lends them to the reader of dumps (`begin` of
// dump_state).
ghost use Rattle.std.specs.Prelude.{◌≡◌, ◌<◌, ◌≤◌, ◌+◌, ◌*◌};
ghost use Rattle.marks_args.specs.Wires.{with_wire, with_wires};

// One pair of the table.
pub fn put_wire(wires: &mut [u64; 258], entry: usize, code: u64, index: u64)
    requires { entry < 129 }
    ensures { wires.new ≡ with_wire wires.old entry code index }
{
    wires[2 * entry] = code;
    wires[2 * entry + 1] = index;
}

// `count` pairs from the entry `first` on: the wires of one code from the index `low` on.
pub fn put_wires(wires: &mut [u64; 258], first: usize, code: u64, low: u64, count: u64)
    requires { (first + count ≤ 129) × (low + count ≤ 18446744073709551616) }
    ensures { wires.new ≡ with_wires wires.old first code low count }
{
    for k in 0..count {
        put_wire(wires, first + k as usize, code, low + k);
    }
}
