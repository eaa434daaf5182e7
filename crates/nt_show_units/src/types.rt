// The texts of types and declared names. Of an expression its offset is told, and its name where it is one.
use crate::saying::Saying;
use nt_ast::{Declared, Expr, IntWord, Path, TypeTree};
use nt_value::Place;
use sqlite_items::Items;

pub(crate) fn say_place(at: Place, out: &mut Saying) {
    out.number(at.offset);
    out.put(b":");
}

pub(crate) fn say_path(path: &Path, out: &mut Saying) {
    say_place(path.at, out);
    if let Some(scope) = &path.scope {
        out.put(scope.items());
        out.put(b"::");
    }
    out.put(path.name.items());
}

fn place_of(expr: &Expr) -> Place {
    match expr {
        Expr::Literal { at, .. }
        | Expr::Read { at, .. }
        | Expr::Member { at, .. }
        | Expr::Item { at, .. }
        | Expr::Part { at, .. }
        | Expr::Indexed { at, .. }
        | Expr::Unary { at, .. }
        | Expr::Binary { at, .. }
        | Expr::Choose { at, .. }
        | Expr::Concat { at, .. }
        | Expr::Repeat { at, .. }
        | Expr::Pattern { at, .. }
        | Expr::Call { at, .. }
        | Expr::Size { at, .. }
        | Expr::Time { at }
        | Expr::Sign { at, .. } => *at,
    }
}

pub(crate) fn say_expr(expr: &Expr, out: &mut Saying) {
    match expr {
        Expr::Read { path, .. } => say_path(path, out),
        Expr::Literal { at, value } => {
            say_place(*at, out);
            out.put(b"n");
            out.number(u32::from(value.bits.width()));
        }
        _ => {
            say_place(place_of(expr), out);
            out.put(b"e");
        }
    }
}

fn said_word(word: IntWord) -> &'static [u8] {
    match word {
        IntWord::Logic => b"logic".as_slice(),
        IntWord::Reg => b"reg".as_slice(),
        IntWord::Bit => b"bit".as_slice(),
        IntWord::Byte => b"byte".as_slice(),
        IntWord::Shortint => b"shortint".as_slice(),
        IntWord::Int => b"int".as_slice(),
        IntWord::Longint => b"longint".as_slice(),
        IntWord::Integer => b"integer".as_slice(),
        IntWord::Time => b"time".as_slice(),
    }
}

fn say_sign(signed: Option<bool>, out: &mut Saying) {
    match signed {
        None => {}
        Some(true) => out.put(b"+"),
        Some(false) => out.put(b"-"),
    }
}

fn say_range(left: &Expr, right: &Expr, out: &mut Saying) {
    out.put(b"[");
    say_expr(left, out);
    out.put(b"..");
    say_expr(right, out);
    out.put(b"]");
}

fn say_dims(dims: &Items<(Expr, Option<Expr>)>, out: &mut Saying) {
    for (left, right) in dims.as_slice() {
        match right {
            None => {
                out.put(b"[");
                say_expr(left, out);
                out.put(b"]");
            }
            Some(right) => say_range(left, right, out),
        }
    }
}

/// Adds the text of a declared name.
pub(crate) fn say_declared(what: &Declared, out: &mut Saying) {
    say_place(what.at, out);
    out.put(what.name.items());
    say_dims(&what.dims, out);
    if let Some(start) = &what.start {
        out.put(b"=");
        say_expr(start, out);
    }
}

/// Adds the text of a type.
#[cycle(say_type)]
pub(crate) fn say_type(kind: &TypeTree, out: &mut Saying) {
    match kind {
        TypeTree::Integral {
            at,
            word,
            signed,
            range,
        } => {
            say_place(*at, out);
            out.put(said_word(*word));
            say_sign(*signed, out);
            if let Some((left, right)) = range {
                say_range(left, right, out);
            }
        }
        TypeTree::Struct { at, members } => {
            say_place(*at, out);
            out.put(b"{");
            say_members(members, out);
            out.put(b"}");
        }
        TypeTree::Named { path, .. } => say_path(path, out),
        TypeTree::Void { at } => {
            say_place(*at, out);
            out.put(b"void");
        }
    }
}

#[cycle(say_type)]
fn say_members(members: &Items<(TypeTree, Declared)>, out: &mut Saying) {
    for (kind, what) in members.as_slice() {
        say_type(kind, out);
        out.put(b" ");
        say_declared(what, out);
        out.put(b";");
    }
}
