// The load of a dump.
ghost use Rattle.std.specs.Prelude.{◌≡◌};
ghost use Rattle.dump.specs.Load.{load, filled};
ghost use Rattle.dump_load.specs.Loading.{loaded_of};

use dump_load::{Loaded, load_dump};

// Reads a dump and fills the frames with its samples. Answers the refusal, the number of frames sampled, and the line and the identifier of a refusal.
#[unsafe(no_mangle)]
pub extern "C" fn selvedgeon_load(dump: &[u8], wires: &[u64], frames: &mut [u32]) -> Loaded
    ensures { (result ≡ loaded_of (load dump.now wires.now frames.old)) × (frames.new ≡ filled (load dump.now wires.now frames.old).frames frames.old) }
{
    load_dump(dump, wires, frames)
}
