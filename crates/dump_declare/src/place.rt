// One word of the declarations, by the word that is due.
ghost use Rattle.std.specs.Prelude.{◌≡◌, length};
ghost use Rattle.dump_declare.specs.Declare.{in_command, in_var, ends_var, declaration_head, declaration_store};

use crate::codes::on_var_end;
use crate::commands::{
    on_command, on_command_end, on_comment, on_scale, on_scope_name, on_scope_type, on_unit,
};
use crate::head::Head;
use crate::vars::{on_range_word, on_var_code, on_var_name, on_var_type, on_width};
use dump_words::{Number, Scan, Text};

// The words of all commands but `$var`; at any other place nothing changes.
fn in_command(h: Head, t: Text) -> Head
    ensures { result ≡ in_command h t }
{
    if h.place == 0 {
        return on_command(h, t);
    }
    if h.place == 1 {
        return on_comment(h, t);
    }
    if h.place == 2 {
        return on_scale(h, t);
    }
    if h.place == 3 {
        return on_unit(h, t);
    }
    if h.place == 4 {
        return on_command_end(h, t);
    }
    if h.place == 5 {
        return on_scope_type(h, t);
    }
    if h.place == 6 {
        return on_scope_name(h, t);
    }
    h
}

// The words of `$var` that write nothing.
fn in_var(h: Head, t: Text, n: Number, s: Scan, store: &[u64]) -> Head
    requires { length store.now ≡ 8468 }
    ensures { result ≡ in_var h t n s store.now }
{
    if h.place == 7 {
        return on_var_type(h, t);
    }
    if h.place == 8 {
        return on_width(h, n);
    }
    if h.place == 9 {
        return on_var_code(h, t, store);
    }
    if h.place == 10 {
        return on_var_name(h, t, s);
    }
    if h.place == 11 {
        return on_range_word(h, s);
    }
    h
}

// Whether the word must be the end of `$var`: behind a range, or where it is none.
fn ends_var(h: Head, s: Scan) -> bool
    ensures { result ≡ ends_var h s }
{
    if h.place == 12 {
        return true;
    }
    if h.place == 11 {
        if s.phase < 3 {
            return true;
        }
        return false;
    }
    false
}

// docs/CLAIMS.md names `declaration` with a contract over any slice of the store's length, so the length stays a clause and no array type carries it.
// What is kept of the word: its text, and the number or the range that it is.
pub fn declaration(h: Head, t: Text, n: Number, s: Scan, store: &mut [u64]) -> Head
    requires { length store.old ≡ 8468 }
    ensures { (result ≡ declaration_head h t n s store.old) × (store.new ≡ declaration_store h t s store.old) }
{
    if h.place < 7 {
        return in_command(h, t);
    }
    if ends_var(h, s) {
        return on_var_end(h, t, store);
    }
    in_var(h, t, n, s, store)
}
