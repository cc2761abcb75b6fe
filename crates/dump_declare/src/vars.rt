// The words of `$var`, up to its name and its range.
ghost use Rattle.std.specs.Prelude.{◌≡◌, length, ◌≤◌, ◌<◌};
ghost use Rattle.dump_declare.specs.Declare.{typed, on_var_type, sized, on_width, coded, agrees, code_at, on_var_code, range_fits, numbers_fit, name_with, on_var_name, range_with, on_range_word};

use crate::head::{Head, at_command, at_place, at_range};
use dump_find::{bounded_count, find};
use dump_words::{Keyword, Number, Scan, Text, is_one_of, text_is};

fn with_type(h: Head, real: u64) -> Head
    ensures { result ≡ typed h real }
{
    Head {
        place: 8,
        real,
        ..at_command(0, h.depth, h.vars, h.codes)
    }
}

pub fn on_var_type(h: Head, t: Text) -> Head
    ensures { result ≡ on_var_type h t }
{
    // event integer parameter reg supply0 supply1 time tri triand trior trireg tri0 tri1 wand wire wor
    let bits = [
        Keyword(5, 500068349541, 0),
        Keyword(7, 32199642103180905, 0),
        Keyword(9, 7310579615589884272, 114),
        Keyword(3, 6776178, 0),
        Keyword(7, 13644305531958643, 0),
        Keyword(7, 13925780508669299, 0),
        Keyword(4, 1701669236, 0),
        Keyword(3, 6910580, 0),
        Keyword(6, 110425243480692, 0),
        Keyword(5, 491495453300, 0),
        Keyword(6, 113685408871028, 0),
        Keyword(4, 812216948, 0),
        Keyword(4, 828994164, 0),
        Keyword(4, 1684955511, 0),
        Keyword(4, 1701996919, 0),
        Keyword(3, 7499639, 0),
    ];
    if is_one_of(t, &bits) {
        return with_type(h, 0);
    }
    // real realtime
    let reals = [
        Keyword(4, 1818322290, 0),
        Keyword(8, 7308613719047628146, 0),
    ];
    if is_one_of(t, &reals) {
        return with_type(h, 1);
    }
    at_place(h, 110)
}

fn with_width(h: Head, width: u64) -> Head
    ensures { result ≡ sized h width }
{
    Head {
        width,
        code: 0,
        ..at_range(h, 9, 0, 0, 0, 0)
    }
}

// A number above 64 bits is above 4,096 too.
pub fn on_width(h: Head, n: Number) -> Head
    ensures { result ≡ on_width h n }
{
    if n.state == 2 {
        return at_place(h, 112);
    }
    if n.state != 1 {
        return at_place(h, 110);
    }
    if n.value == 0 {
        return at_place(h, 110);
    }
    if n.value > 4096 {
        return at_place(h, 112);
    }
    with_width(h, n.value)
}

fn with_code(h: Head, code: u64) -> Head
    ensures { result ≡ coded h code }
{
    Head {
        code,
        ..at_range(h, 10, 0, 0, 0, 0)
    }
}

// Whether the code at place i has the width and the sort that are declared now.
fn code_agrees(h: Head, i: usize, store: &[u64]) -> bool
    requires { (length store.now ≡ 8468) × (i < 1024) }
    ensures { result ≡ agrees h store.now i }
{
    if store[1024 + i] != h.width {
        return false;
    }
    if store[2048 + i] == 2 {
        return h.real == 1;
    }
    h.real != 1
}

// The code x, which is found at place i, or is new.
fn code_at(h: Head, x: u64, i: usize, n: usize, store: &[u64]) -> Head
    requires { (length store.now ≡ 8468) × (n ≤ 1024) }
    ensures { result ≡ code_at h x i n store.now }
{
    if i >= n {
        return with_code(h, x);
    }
    if code_agrees(h, i, store) {
        return with_code(h, x);
    }
    at_place(h, 110)
}

pub fn on_var_code(h: Head, t: Text, store: &[u64]) -> Head
    requires { length store.now ≡ 8468 }
    ensures { result ≡ on_var_code h t store.now }
{
    if t.length > 8 {
        return at_place(h, 112);
    }
    if text_is(t, Keyword::END) {
        return at_place(h, 110);
    }
    if t.plain != 1 {
        return at_place(h, 110);
    }
    let n = bounded_count(h.codes);
    let i = find(store, n, t.low);
    code_at(h, t.low, i, n, store)
}

// Whether two ends are at a distance of the width less 1.
pub fn range_fits(width: u64, left: u64, right: u64) -> bool
    ensures { result ≡ range_fits width left right }
{
    if width == 0 {
        return false;
    }
    if left < right {
        return right - left == width - 1;
    }
    left - right == width - 1
}

// Whether both ends are numbers of at most 64 bits and fit the width.
fn numbers_fit(width: u64, left: Number, right: Number) -> bool
    ensures { result ≡ numbers_fit width left right }
{
    if left.state != 1 {
        return false;
    }
    if right.state != 1 {
        return false;
    }
    range_fits(width, left.value, right.value)
}

// A name that ends with a range of these ends.
fn name_with(h: Head, ends: u64, left: Number, right: Number) -> Head
    ensures { result ≡ name_with h ends left right }
{
    if numbers_fit(h.width, left, right) {
        return at_range(h, 11, 0, ends, left.value, right.value);
    }
    at_range(h, 11, 1, 0, 0, 0)
}

pub fn on_var_name(h: Head, t: Text, s: Scan) -> Head
    ensures { result ≡ on_var_name h t s }
{
    if text_is(t, Keyword::END) {
        return at_place(h, 110);
    }
    if h.real == 1 {
        return at_range(h, 11, 0, 0, 0, 0);
    }
    if s.phase == 4 {
        return name_with(h, 1, s.left, s.right);
    }
    if s.phase != 3 {
        return at_range(h, 11, 0, 0, 0, 0);
    }
    if h.width != 1 {
        return at_range(h, 11, 0, 0, 0, 0);
    }
    name_with(h, 2, s.left, s.left)
}

// A word that is a range of these ends.
fn range_with(h: Head, ends: u64, left: Number, right: Number) -> Head
    ensures { result ≡ range_with h ends left right }
{
    if numbers_fit(h.width, left, right) {
        return at_range(h, 12, 0, ends, left.value, right.value);
    }
    at_place(h, 110)
}

// A word behind the name that is a range, as `s` says.
pub fn on_range_word(h: Head, s: Scan) -> Head
    ensures { result ≡ on_range_word h s }
{
    if s.phase == 4 {
        return range_with(h, 1, s.left, s.right);
    }
    range_with(h, 2, s.left, s.left)
}
