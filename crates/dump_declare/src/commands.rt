// The keyword of a command, and the words of all commands but `$var`.
ghost use Rattle.std.specs.Prelude.{◌≡◌};
ghost use Rattle.dump_declare.specs.Declare.{opens, closes, declares, ends_all, on_command, on_comment, on_scale, on_unit, on_command_end, on_scope_type, on_scope_name};

use crate::head::{Head, at_command, at_place};
use dump_words::{Keyword, Text, is_one_of, text_is};

fn open_scope(h: Head) -> Head
    ensures { result ≡ opens h }
{
    if h.depth < 32 {
        return at_command(5, h.depth + 1, h.vars, h.codes);
    }
    at_place(h, 111)
}

fn close_scope(h: Head) -> Head
    ensures { result ≡ closes h }
{
    if h.depth == 0 {
        return at_place(h, 110);
    }
    at_command(4, h.depth - 1, h.vars, h.codes)
}

fn open_var(h: Head) -> Head
    ensures { result ≡ declares h }
{
    if h.vars < 1024 {
        return at_command(7, h.depth, h.vars + 1, h.codes);
    }
    at_place(h, 112)
}

fn end_all(h: Head) -> Head
    ensures { result ≡ ends_all h }
{
    if h.depth == 0 {
        return at_place(h, 13);
    }
    at_place(h, 110)
}

pub fn on_command(h: Head, t: Text) -> Head
    ensures { result ≡ on_command h t }
{
    // $comment $date $version
    let skipped = [
        Keyword(8, 8389754676499669796, 0),
        Keyword(5, 435744236580, 0),
        Keyword(8, 7957695011148363300, 0),
    ];
    if is_one_of(t, &skipped) {
        return at_place(h, 1);
    }
    // $timescale
    if text_is(t, Keyword(10, 7017579523837883428, 25964)) {
        return at_place(h, 2);
    }
    // $scope
    if text_is(t, Keyword(6, 111533579531044, 0)) {
        return open_scope(h);
    }
    // $upscope
    if text_is(t, Keyword(8, 7309464668151510308, 0)) {
        return close_scope(h);
    }
    // $var
    if text_is(t, Keyword(4, 1918989860, 0)) {
        return open_var(h);
    }
    // $enddefinitions
    if text_is(t, Keyword(15, 7594869303463011620, 32491047111387502)) {
        return end_all(h);
    }
    at_place(h, 110)
}

// A word of a comment, and `$end`, behind which a command is due.
pub fn on_comment(h: Head, t: Text) -> Head
    ensures { result ≡ on_comment h t }
{
    if text_is(t, Keyword::END) {
        return at_place(h, 0);
    }
    h
}

pub fn on_scale(h: Head, t: Text) -> Head
    ensures { result ≡ on_scale h t }
{
    // 1 10 100
    let ones = [
        Keyword(1, 49, 0),
        Keyword(2, 12337, 0),
        Keyword(3, 3158065, 0),
    ];
    if is_one_of(t, &ones) {
        return at_place(h, 3);
    }
    // 1s 1ms 1us 1ns 1ps 1fs 10s 10ms 10us 10ns 10ps 10fs 100s 100ms 100us 100ns 100ps 100fs
    let scales = [
        Keyword(2, 29489, 0),
        Keyword(3, 7564593, 0),
        Keyword(3, 7566641, 0),
        Keyword(3, 7564849, 0),
        Keyword(3, 7565361, 0),
        Keyword(3, 7562801, 0),
        Keyword(3, 7548977, 0),
        Keyword(4, 1936535601, 0),
        Keyword(4, 1937059889, 0),
        Keyword(4, 1936601137, 0),
        Keyword(4, 1936732209, 0),
        Keyword(4, 1936076849, 0),
        Keyword(4, 1932537905, 0),
        Keyword(5, 495753113649, 0),
        Keyword(5, 495887331377, 0),
        Keyword(5, 495769890865, 0),
        Keyword(5, 495803445297, 0),
        Keyword(5, 495635673137, 0),
    ];
    if is_one_of(t, &scales) {
        return at_place(h, 4);
    }
    at_place(h, 110)
}

pub fn on_unit(h: Head, t: Text) -> Head
    ensures { result ≡ on_unit h t }
{
    // s ms us ns ps fs
    let units = [
        Keyword(1, 115, 0),
        Keyword(2, 29549, 0),
        Keyword(2, 29557, 0),
        Keyword(2, 29550, 0),
        Keyword(2, 29552, 0),
        Keyword(2, 29542, 0),
    ];
    if is_one_of(t, &units) {
        return at_place(h, 4);
    }
    at_place(h, 110)
}

pub fn on_command_end(h: Head, t: Text) -> Head
    ensures { result ≡ on_command_end h t }
{
    if text_is(t, Keyword::END) {
        return at_place(h, 0);
    }
    at_place(h, 110)
}

pub fn on_scope_type(h: Head, t: Text) -> Head
    ensures { result ≡ on_scope_type h t }
{
    // begin fork function module task
    let types = [
        Keyword(5, 474214786402, 0),
        Keyword(4, 1802661734, 0),
        Keyword(8, 7957695015192261990, 0),
        Keyword(6, 111516500389741, 0),
        Keyword(4, 1802723700, 0),
    ];
    if is_one_of(t, &types) {
        return at_place(h, 6);
    }
    at_place(h, 110)
}

pub fn on_scope_name(h: Head, t: Text) -> Head
    ensures { result ≡ on_scope_name h t }
{
    if text_is(t, Keyword::END) {
        return at_place(h, 110);
    }
    at_place(h, 4)
}
