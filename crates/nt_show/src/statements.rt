// The text of a statement: each node after its offset.
use crate::expressions::{say_all, say_expr};
use crate::saying::Saying;
use crate::words::{begin, say_path};
use nt_ast::{Expr, Stmt};
use nt_value::{Edge, Name, Place};
use sqlite_items::{Boxed, Items};

fn say_name(name: &Name, after: &[u8], out: &mut Saying) {
    out.put(name.items());
    out.put(after);
}

fn say_spaced(parts: &Items<Expr>, out: &mut Saying) {
    for part in parts.as_slice() {
        out.put(b" ");
        say_expr(part, out);
    }
}

fn say_events(on: &Items<(Edge, Expr)>, out: &mut Saying) {
    for (edge, part) in on.as_slice() {
        out.put(match *edge {
            Edge::Any => b"any ".as_slice(),
            Edge::Pos => b"pos ".as_slice(),
            Edge::Neg => b"neg ".as_slice(),
        });
        say_expr(part, out);
        out.put(b" ");
    }
}

// What stands before the body of a statement.
fn say_test(at: Place, opening: &[u8], expr: &Expr, out: &mut Saying) {
    begin(at, opening, out);
    say_expr(expr, out);
    out.put(b" ");
}

#[cycle(say_stmt)]
fn say_body(body: &Boxed<Stmt>, out: &mut Saying) {
    say_stmt(body.get(), out);
    out.put(b")");
}

fn say_pair(at: Place, left: &Expr, mark: &[u8], right: &Expr, out: &mut Saying) {
    begin(at, b"(", out);
    say_expr(left, out);
    out.put(mark);
    say_expr(right, out);
    out.put(b")");
}

#[cycle(say_stmt)]
fn say_block(items: &Items<Stmt>, out: &mut Saying) {
    let mut later = false;
    for item in items.as_slice() {
        if later {
            out.put(b" ");
        }
        later = true;
        say_stmt(item, out);
    }
    out.put(b"}");
}

#[cycle(say_stmt)]
fn say_arms(arms: &Items<(Items<Expr>, Stmt)>, out: &mut Saying) {
    for (values, body) in arms.as_slice() {
        out.put(b" [");
        say_all(values, b"] ", out);
        say_stmt(body, out);
    }
}

/// Adds the text of a statement.
#[cycle(say_stmt)]
pub(crate) fn say_stmt(stmt: &Stmt, out: &mut Saying) {
    match stmt {
        Stmt::Null { at } => begin(*at, b";", out),
        Stmt::Block { at, items } => {
            begin(*at, b"{", out);
            say_block(items, out);
        }
        Stmt::Assign { at, left, right } => say_pair(*at, left, b" = ", right, out),
        Stmt::Nonblocking { at, left, right } => say_pair(*at, left, b" <= ", right, out),
        Stmt::If { at, test, yes, no } => {
            begin(*at, b"if(", out);
            say_expr(test, out);
            out.put(b" ");
            say_stmt(yes.get(), out);
            if let Some(other) = no {
                out.put(b" else ");
                say_stmt(other.get(), out);
            }
            out.put(b")");
        }
        Stmt::Case {
            at,
            test,
            arms,
            other,
        } => {
            begin(*at, b"case(", out);
            say_expr(test, out);
            say_arms(arms, out);
            if let Some(body) = other {
                out.put(b" default ");
                say_stmt(body.get(), out);
            }
            out.put(b")");
        }
        Stmt::While { at, test, body } => {
            say_test(*at, b"while(", test, out);
            say_body(body, out);
        }
        Stmt::Repeat { at, count, body } => {
            say_test(*at, b"repeat(", count, out);
            say_body(body, out);
        }
        Stmt::For {
            at,
            fresh,
            name,
            first,
            test,
            step,
            body,
            ..
        } => {
            begin(
                *at,
                if *fresh {
                    b"for(int ".as_slice()
                } else {
                    b"for(".as_slice()
                },
                out,
            );
            say_name(name, b" = ", out);
            say_expr(first, out);
            out.put(b" ");
            say_expr(test, out);
            out.put(b" ");
            say_stmt(step.get(), out);
            out.put(b" ");
            say_body(body, out);
        }
        Stmt::Forever { at, body } => {
            begin(*at, b"forever(", out);
            say_body(body, out);
        }
        Stmt::Foreach {
            at,
            array,
            index,
            body,
            ..
        } => {
            begin(*at, b"foreach(", out);
            say_name(array, b" ", out);
            say_name(index, b" ", out);
            say_body(body, out);
        }
        Stmt::Delay { at, amount, body } => {
            say_test(*at, b"delay(", amount, out);
            say_body(body, out);
        }
        Stmt::Event { at, any, on, body } => {
            begin(
                *at,
                if *any {
                    b"event(* ".as_slice()
                } else {
                    b"event(".as_slice()
                },
                out,
            );
            say_events(on, out);
            say_body(body, out);
        }
        Stmt::Wait { at, test, body } => {
            say_test(*at, b"wait(", test, out);
            say_body(body, out);
        }
        Stmt::Return { at, value } => {
            begin(*at, b"return(", out);
            if let Some(x) = value {
                say_expr(x, out);
            }
            out.put(b")");
        }
        Stmt::Break { at } => begin(*at, b"break", out),
        Stmt::Continue { at } => begin(*at, b"continue", out),
        Stmt::Call { at, path, args } => {
            begin(*at, b"", out);
            say_path(*at, path, out);
            out.put(b"(");
            say_all(args, b")", out);
        }
        Stmt::Display { at, text, args } => {
            begin(*at, b"display(\"", out);
            out.put(text.items());
            out.put(b"\"");
            say_spaced(args, out);
            out.put(b")");
        }
        Stmt::Finish { at } => begin(*at, b"finish", out),
    }
}
