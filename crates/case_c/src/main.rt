// Case C of the whiteboard table: a cycle sequence of kind 1 over four wires declared [0:3], stepped through its six samples. Writes the row and the open
// word of each cycle.
#![tactic(auto)]

use bus::Range;
use checker::Monitor;
use rules::{Config, Frame};
use std::io;

const SAMPLES: [u32; 6] = [8, 4, 10, 5, 2, 1];

fn main(rt: HostRuntime) -> io::Result<()> {
    let unused = Range { left: 0, right: 0 };
    let config = Config {
        kind: 1,
        n: 4,
        p: Range { left: 0, right: 3 },
        q: unused,
        r: unused,
        min: 0,
        value: 0,
        severity: 0,
    };
    let mut monitor = Monitor { config, word: 0 };
    println!(rt; "cycle row word")?;
    for (cycle, sample) in SAMPLES.iter().enumerate() {
        let frame = Frame {
            samples: [1, *sample, 0, 0, 0, 0, 0, 0],
        };
        let Ok(stepped) = monitor.step(frame) else {
            return println!(rt; "refused");
        };
        monitor = stepped.monitor;
        println!(rt; "{cycle} {} {}", stepped.row, monitor.word)?;
    }
    Ok(())
}
