// The lines of the cycles. The columns are as wide in the line of their names as in the lines below it: 5 for the cycle, then 2 spaces before each column.
ghost use Rattle.std.specs.Prelude.{◌≡◌, ◌<◌, ◌≤◌, length};
ghost use Rattle.trace.specs.Traces.{frames};

use crate::names::put_marks;
use marks_args::{Keyword, Settings};
use marks_line::{Line, Sample};
use rules::{Family, Frame, STOPPED};
use std::io;
use trace::frame_at;

// The open word: kind 8 keeps its reference in it, and no other kind has a word of more than 10 digits but the one that says stopped.
fn word_width(kind: u8) -> usize
    ensures { (10 ≤ result) × (result ≤ 15) }
{
    match Family::try_from(kind) {
        Ok(Family::Stability) => 15,
        _ => 10,
    }
}

fn print_names(rt: &impl Print, s: &Settings) -> io::Result<()> {
    let c = s.config;
    let mut line = Line::new();
    line.put("cycle  ");
    if s.is_given(Keyword::Reset) {
        line.put("reset  ");
    }
    if s.is_given(Keyword::Enable) {
        line.put("enable  ");
    }
    for (name, keyword, range) in [
        ("P", Keyword::P, c.p),
        ("Q", Keyword::Q, c.q),
        ("R", Keyword::R, c.r),
    ] {
        if s.is_given(keyword) {
            line.put(name);
            line.put_spaces(range.width() as usize + 1);
        }
    }
    line.put_spaces(word_width(c.kind) - 9);
    line.put("open word  marks");
    line.print(rt)
}

// A word of a frame: 0 has reset_n and enable, then P, Q and R.
fn sample_of(f: &Frame, word: usize) -> Sample
    requires { word < 4 }
{
    Sample {
        wires: f.samples[word],
        unknown: f.samples[4 + word],
    }
}

// What is sampled of the wires and the ports that are connected.
fn put_samples(line: &mut Line, s: &Settings, f: &Frame) {
    let c = s.config;
    if s.is_given(Keyword::Reset) {
        line.put_wire(sample_of(f, 0), 0);
        line.put_spaces(6);
    }
    if s.is_given(Keyword::Enable) {
        line.put_wire(sample_of(f, 0), 1);
        line.put_spaces(7);
    }
    for (keyword, sample, range) in [
        (Keyword::P, sample_of(f, 1), c.p),
        (Keyword::Q, sample_of(f, 2), c.q),
        (Keyword::R, sample_of(f, 3), c.r),
    ] {
        if s.is_given(keyword) {
            line.put_bits(sample, range);
            line.put_spaces(2);
        }
    }
}

// The open word as a number; the word of a fatal checker that has failed is 2^63.
fn put_word(line: &mut Line, word: u64, width: usize)
    requires { 10 ≤ width }
{
    if word == STOPPED {
        line.put_spaces(width - 7);
        line.put("stopped");
    } else {
        line.put_right(word, width);
    }
}

fn print_row(
    rt: &impl Print,
    s: &Settings,
    t: usize,
    f: Frame,
    row: u32,
    word: u64,
) -> io::Result<()> {
    let mut line = Line::new();
    line.put_right(t as u64, 5);
    line.put_spaces(2);
    put_samples(&mut line, s, &f);
    put_word(&mut line, word, word_width(s.config.kind));
    line.put_spaces(2);
    put_marks(&mut line, row);
    line.print(rt)
}

// All cycles of a trace, with their rows and words.
pub fn print_rows(
    rt: &impl Print,
    s: Settings,
    trace: &[u32],
    rows: &[u32],
    words: &[u64],
) -> io::Result<()>
    requires { (length rows.now ≡ frames trace.now) × (length words.now ≡ frames trace.now) }
{
    print_names(rt, &s)?;
    for (t, (row, word)) in rows.iter().zip(words).enumerate() {
        print_row(rt, &s, t, frame_at(trace, t), *row, *word)?;
    }
    Ok(())
}
