// The arguments, option by option.
ghost use Rattle.std.specs.Prelude.{◌≡◌, ◌≤◌, ◌+◌, IfErr};

use crate::argument::Arguments;
use crate::faults::{Fault, Misuse};
use crate::keyword::Keyword;
use crate::settings::Settings;
use crate::wires::{put_wire, put_wires};
use bus::Range;
use rules::Config;
use std::env::Env;

// The clock, reset_n or enable: a code and an index.
#[tactic(auto, unfolding(crate::specs::Arguments::behind))]
fn connect(
    arguments: &mut Arguments<impl Env>,
    wires: &mut [u64; 258],
    entry: usize,
) -> Result<(), Misuse>
    requires { entry ≤ 2 }
    ensures { (arguments.new.at ≤ arguments.old.at + 2) × IfErr result (λ m. m.at ≡ arguments.new.at) }
{
    let code = arguments.code()?;
    let index = arguments.number()?;
    put_wire(wires, entry, code, index);
    Ok(())
}

// P, Q or R: a code, and the indices of its left and right wire. The port is declared [left-right:0] where left is at least right, else [0:right-left]: both
// ways the lowest index becomes wire 0 of the port's word of a frame.
#[tactic(auto, unfolding(crate::specs::Arguments::behind))]
fn connect_port(
    arguments: &mut Arguments<impl Env>,
    wires: &mut [u64; 258],
    word: usize,
) -> Result<Range, Misuse>
    requires { word ≤ 3 }
    ensures { (arguments.new.at ≤ arguments.old.at + 3) × IfErr result (λ m. m.at ≡ arguments.new.at) }
{
    let code = arguments.code()?;
    let left = arguments.number()?;
    let right = arguments.number()?;
    let low = left.min(right);
    let last = left.abs_diff(right);
    if 31 < last {
        return Err(arguments.misuse(Fault::TooWide));
    }
    put_wires(wires, 1 + 32 * word, code, low, last + 1);
    let last = last as u8;
    if right <= left {
        Ok(Range {
            left: last,
            right: 0,
        })
    } else {
        Ok(Range {
            left: 0,
            right: last,
        })
    }
}

// What follows the keyword of an option.
#[tactic(auto, unfolding(crate::specs::Arguments::behind))]
fn take_option(
    keyword: Keyword,
    arguments: &mut Arguments<impl Env>,
    wires: &mut [u64; 258],
    config: &mut Config,
) -> Result<(), Misuse>
    ensures { (arguments.new.at ≤ arguments.old.at + 3) × IfErr result (λ m. m.at ≡ arguments.new.at) }
{
    match keyword {
        Keyword::Clock => connect(arguments, wires, 0)?,
        Keyword::Reset => connect(arguments, wires, 1)?,
        Keyword::Enable => connect(arguments, wires, 2)?,
        Keyword::P => config.p = connect_port(arguments, wires, 1)?,
        Keyword::Q => config.q = connect_port(arguments, wires, 2)?,
        Keyword::R => config.r = connect_port(arguments, wires, 3)?,
        Keyword::Min => config.min = arguments.word()?,
        Keyword::Value => config.value = arguments.word()?,
        Keyword::Severity => config.severity = arguments.byte()?,
    }
    Ok(())
}

// All arguments: the settings, and the table of connections. There are nine options and none is taken twice, so the tenth turn ends the arguments or refuses.
pub fn read_settings(rt: &impl Env, wires: &mut [u64; 258]) -> Result<Settings, Misuse> {
    let mut arguments = Arguments::new(rt);
    let kind = arguments.byte()?;
    let n = arguments.word()?;
    let mut settings = Settings::new(kind, n);
    for _ in 0..10 {
        let Some(keyword) = arguments.keyword()? else {
            break;
        };
        if settings.is_given(keyword) {
            return Err(arguments.misuse(Fault::Twice));
        }
        take_option(keyword, &mut arguments, wires, &mut settings.config)?;
        settings.give(keyword);
    }
    if !settings.is_given(Keyword::Clock) {
        return Err(arguments.misuse(Fault::NoClock));
    }
    Ok(settings)
}
