// The state in which a reader begins.
ghost use Rattle.std.specs.Prelude.{◌≡◌, ◌≤◌, length};
ghost use Rattle.dump_load.specs.Loading.{first_reader, table_from};

use dump_change::Wave;
use dump_declare::Head;
use dump_reader::{Reader, Word};

pub fn first_reader() -> Reader
    ensures { result ≡ first_reader }
{
    Reader {
        line: 1,
        started: 0,
        shown: 0,
        word: Word::NONE,
        head: Head::START,
        wave: Wave::START,
    }
}

// The table of connections, put into the store.
pub fn put_table(store: &mut [u64], wires: &[u64])
    requires { (length store.old ≡ 8468) × (length wires.now ≡ 258) }
    ensures { store.new ≡ table_from store.old wires.now 0 258 }
{
    for k in 0..258 {
        store[8192 + k] = wires[k];
    }
}
