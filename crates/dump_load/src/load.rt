// The call.
ghost use Rattle.std.specs.Prelude.{◌≡◌, ◌≤◌, length};
ghost use Rattle.dump.specs.Load.{load, filled};
ghost use Rattle.dump_load.specs.Loading.{fits, loaded_of, answered, read_all};

use crate::answer::{Loaded, answer_of, refused_with};
use crate::begin::{first_reader, put_table};
use dump_reader::{end_text, read_bytes};
use rules::Refusal;

// Whether so many words are a trace.
pub fn frames_fit(words: usize) -> bool
    ensures { result ≡ fits words }
{
    if words % 8 != 0 {
        return false;
    }
    words / 8 <= 65536
}

// A dump for a table and frames of good lengths: begin, one piece, end. The arrays of the reader stand here once.
fn read_dump(dump: &[u8], wires: &[u64], frames: &mut [u32]) -> Loaded
    requires { (length wires.now ≡ 258) × (length frames.old ≤ 524288) }
    ensures { (result ≡ answered (read_all dump.now wires.now frames.old).reader) × (frames.new ≡ (read_all dump.now wires.now frames.old).frames) }
{
    let mut store = [0; 8468];
    let mut digits = [0; 4096];
    put_table(&mut store, wires);
    let r = first_reader();
    let s = read_bytes(r, dump, &mut store, &mut digits, frames);
    let t = end_text(s, &mut store, &digits, frames);
    answer_of(t)
}

// Reads a dump and fills the frames with its samples. Answers the refusal, how many frames were sampled, and where a refusal shows. Refusals 4 and 5 before
// anything is read, 10 to 14 and 16; what stands behind the frames sampled is as it was.
pub fn load_dump(dump: &[u8], wires: &[u64], frames: &mut [u32]) -> Loaded
    ensures { (result ≡ loaded_of (load dump.now wires.now frames.old)) × (frames.new ≡ filled (load dump.now wires.now frames.old).frames frames.old) }
{
    if frames_fit(frames.len()) {
        if wires.len() == 258 {
            return read_dump(dump, wires, frames);
        }
        return refused_with(Refusal::SliceLength.number());
    }
    refused_with(Refusal::TraceLength.number())
}
