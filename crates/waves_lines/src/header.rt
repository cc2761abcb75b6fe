// The header.
ghost use Rattle.std.specs.Prelude.{◌+◌, ◌≤◌, ◌<◌, length};
ghost use Rattle.waves.specs.Text.{line, text};
ghost use Rattle.waves.specs.Waves.{declaration, name, header};
ghost use Rattle.waves_put.specs.Put.{Put};

use crate::name::put_name;
use waves_put::put_text;

// `$var wire 1 k3m32 k3m32 $end`, the line of wire j. Answers the place behind it.
fn put_wire(j: u32, out: &mut [u8], at: usize) -> usize
    requires { (j < 384) × (at + length (line (declaration (name j))) ≤ length out.old) }
    ensures { Put (line (declaration (name j))) out.old at out.new result }
{
    let checker = j / 6;
    let mark = 1u32 << (j % 6);
    let code = put_text(b"$var wire 1 ", out, at);
    let blank = put_name(checker, mark, out, code);
    let name = put_text(b" ", out, blank);
    let end = put_name(checker, mark, out, name);
    put_text(b" $end\n", out, end)
}

// All of it. Answers the place behind it.
pub fn put_header(checkers: usize, out: &mut [u8], at: usize) -> usize
    requires { (checkers ≤ 64) × (at + length (text (header checkers)) ≤ length out.old) }
    ensures { Put (text (header checkers)) out.old at out.new result }
{
    let mut next = put_text(
        b"$scope module marks $end\n$var wire 1 clk clk $end\n",
        out,
        at,
    );
    let wires = 6 * checkers as u32;
    for j in 0..wires {
        next = put_wire(j, out, next);
    }
    put_text(b"$upscope $end\n$enddefinitions $end\n", out, next)
}
