// The state before the first piece.
ghost use Rattle.std.specs.Prelude.{◌≡◌};
ghost use Rattle.dump_state.specs.Pieces.{begun, first_state};

use crate::state::State;
use dump_load::{first_reader, put_table};

fn first_state(table: u32, store: [u64; 8468]) -> State
    ensures { result ≡ first_state table store }
{
    let reader = first_reader();
    let digits = [0; 4096];
    State {
        refusal: 0,
        table,
        frames: 0,
        line: 0,
        identifier: 0,
        reader,
        store,
        digits,
    }
}

// The state is made from the table of connections, whatever its length: a piece or the end refuses a wrong one.
pub fn begin(wires: &[u64]) -> State
    ensures { result ≡ begun wires.now }
{
    let mut store = [0; 8468];
    if wires.len() == 258 {
        put_table(&mut store, wires);
        return first_state(0, store);
    }
    first_state(1, store)
}
