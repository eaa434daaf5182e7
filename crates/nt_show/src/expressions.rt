// The text of an expression: each node after its offset.
use crate::saying::Saying;
use crate::words::{begin, said_binary, said_unary, say_key, say_literal, say_path};
use nt_ast::{Expr, Key};
use sqlite_items::{Boxed, Items};

/// Adds the text of an expression.
#[cycle(say_expr)]
pub(crate) fn say_expr(expr: &Expr, out: &mut Saying) {
    match expr {
        Expr::Literal { at, value } => {
            begin(*at, b"", out);
            say_literal(value, out);
        }
        Expr::Read { at, path } => {
            begin(*at, b"", out);
            say_path(*at, path, out);
        }
        Expr::Member { at, of, name, .. } => {
            begin(*at, b"(", out);
            say_then(of, b" .", out);
            out.put(name.items());
            out.put(b")");
        }
        Expr::Item { at, of, index } => {
            begin(*at, b"(", out);
            say_then(of, b" [ ", out);
            say_then(index, b" ])", out);
        }
        Expr::Part {
            at,
            of,
            left,
            right,
        } => {
            begin(*at, b"(", out);
            say_then(of, b" [ ", out);
            say_then(left, b" : ", out);
            say_then(right, b" ])", out);
        }
        Expr::Indexed {
            at,
            of,
            base,
            width,
            up,
        } => {
            begin(*at, b"(", out);
            say_then(of, b" [ ", out);
            say_then(
                base,
                if *up {
                    b" +: ".as_slice()
                } else {
                    b" -: ".as_slice()
                },
                out,
            );
            say_then(width, b" ])", out);
        }
        Expr::Unary { at, op, of } => {
            begin(*at, b"(", out);
            out.put(said_unary(*op));
            out.put(b" ");
            say_then(of, b")", out);
        }
        Expr::Binary {
            at,
            op,
            left,
            right,
        } => {
            begin(*at, b"(", out);
            say_then(left, said_binary(*op), out);
            say_then(right, b")", out);
        }
        Expr::Choose { at, test, yes, no } => {
            begin(*at, b"(", out);
            say_then(test, b" ? ", out);
            say_then(yes, b" : ", out);
            say_then(no, b")", out);
        }
        Expr::Concat { at, parts } => {
            begin(*at, b"{", out);
            say_all(parts, b"}", out);
        }
        Expr::Repeat { at, count, parts } => {
            begin(*at, b"{", out);
            say_then(count, b"{", out);
            say_all(parts, b"}}", out);
        }
        Expr::Pattern { at, items } => {
            begin(*at, b"'{", out);
            say_items(items, out);
        }
        Expr::Call { at, path, args } => {
            begin(*at, b"", out);
            say_path(*at, path, out);
            out.put(b"(");
            say_all(args, b")", out);
        }
        Expr::Size { at, of } => {
            begin(*at, b"(", out);
            say_then(of, b" .size())", out);
        }
        Expr::Time { at } => begin(*at, b"$time", out),
        Expr::Sign { at, signed, of } => {
            begin(
                *at,
                if *signed {
                    b"$signed(".as_slice()
                } else {
                    b"$unsigned(".as_slice()
                },
                out,
            );
            say_then(of, b")", out);
        }
    }
}

#[cycle(say_expr)]
fn say_then(expr: &Boxed<Expr>, after: &[u8], out: &mut Saying) {
    say_expr(expr.get(), out);
    out.put(after);
}

/// Adds the texts of expressions with a comma between two.
#[cycle(say_expr)]
pub(crate) fn say_all(parts: &Items<Expr>, after: &[u8], out: &mut Saying) {
    let mut later = false;
    for part in parts.as_slice() {
        if later {
            out.put(b",");
        }
        later = true;
        say_expr(part, out);
    }
    out.put(after);
}

#[cycle(say_expr)]
fn say_items(parts: &Items<(Option<Key>, Expr)>, out: &mut Saying) {
    let mut later = false;
    for (key, part) in parts.as_slice() {
        if later {
            out.put(b",");
        }
        later = true;
        say_key(key, out);
        say_expr(part, out);
    }
    out.put(b"}");
}
