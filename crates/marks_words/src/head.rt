// The head of the table: the checker, and what is taken for wires that are not connected.
use bus::Range;
use marks_args::{Keyword, Settings};
use rules::{Config, FATAL, Family};
use std::io;

// A port that the kind uses.
#[derive(Clone, Copy)]
struct Port {
    name: &'static str,
    keyword: Keyword,
    range: Range,
}

// P; Q of all kinds but 0 to 2; and R of kind 6.
fn ports(c: Config) -> [Option<Port>; 3] {
    let family = Family::try_from(c.kind).ok();
    let p = Port {
        name: "P",
        keyword: Keyword::P,
        range: c.p,
    };
    let q = Port {
        name: "Q",
        keyword: Keyword::Q,
        range: c.q,
    };
    let r = Port {
        name: "R",
        keyword: Keyword::R,
        range: c.r,
    };
    match family {
        Some(Family::Sequence) => [Some(p), None, None],
        Some(Family::Transition) => [Some(p), Some(q), Some(r)],
        _ => [Some(p), Some(q), None],
    }
}

// Whether the kind is 7 or 8, which have min and read enable.
fn has_window(kind: u8) -> bool {
    matches!(
        Family::try_from(kind),
        Ok(Family::Value | Family::Stability)
    )
}

// The checker, as the arguments give it.
fn print_checker(rt: &impl Print, c: Config) -> io::Result<()> {
    let Config {
        kind,
        n,
        min,
        value,
        ..
    } = c;
    print!(rt; "kind {kind}, n {n}")?;
    for port in ports(c).into_iter().flatten() {
        let Port { name, range, .. } = port;
        let Range { left, right } = range;
        print!(rt; ", {name} [{left}:{right}]")?;
    }
    if has_window(kind) {
        print!(rt; ", min {min}")?;
    }
    if let Ok(Family::Value) = Family::try_from(kind) {
        print!(rt; ", value {value}")?;
    }
    if c.severity == FATAL {
        rt.print(", fatal")?;
    }
    rt.print("\n")
}

pub fn print_head(rt: &impl Print, s: Settings) -> io::Result<()> {
    let c = s.config;
    print_checker(rt, c)?;
    if !s.is_given(Keyword::Reset) {
        rt.println("reset is not connected and is taken as 1")?;
    }
    if has_window(c.kind) && !s.is_given(Keyword::Enable) {
        rt.println("enable is not connected and is taken as 1")?;
    }
    for port in ports(c).into_iter().flatten() {
        let Port { name, keyword, .. } = port;
        if !s.is_given(keyword) {
            println!(rt; "{name} is not connected and is taken as 0")?;
        }
    }
    Ok(())
}
