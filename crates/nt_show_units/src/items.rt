// The texts of items.
use crate::saying::Saying;
use crate::types::{say_declared, say_expr, say_path, say_place, say_type};
use nt_ast::{Declared, Expr, Stmt, TypeTree};
use nt_items::{Conn, FunctionItem, Item, NettypeItem, Port, PortKind, ProcedureItem, Way};
use nt_value::{Name, Place, ProcKind};
use sqlite_items::{Boxed, Items};

fn say_name(at: Place, name: &Name, out: &mut Saying) {
    say_place(at, out);
    out.put(name.items());
}

fn say_kind(kind: &Option<Boxed<TypeTree>>, out: &mut Saying) {
    match kind {
        None => out.put(b"_"),
        Some(kind) => say_type(kind.get(), out),
    }
}

fn say_typed(of: &Boxed<TypeTree>, what: &Boxed<Declared>, out: &mut Saying) {
    say_type(of.get(), out);
    out.put(b" ");
    say_declared(what.get(), out);
}

fn said_way(way: Way) -> &'static [u8] {
    match way {
        Way::Input => b"in ".as_slice(),
        Way::Output => b"out ".as_slice(),
        Way::Inout => b"inout ".as_slice(),
    }
}

fn said_port_kind(kind: PortKind) -> &'static [u8] {
    match kind {
        PortKind::Wire => b"wire ".as_slice(),
        PortKind::Interconnect => b"link ".as_slice(),
        PortKind::Variable => b"var ".as_slice(),
        PortKind::ByType => b"any ".as_slice(),
    }
}

fn said_proc_kind(kind: ProcKind) -> &'static [u8] {
    match kind {
        ProcKind::Initial => b"initial ".as_slice(),
        ProcKind::Always => b"always ".as_slice(),
        ProcKind::Comb => b"comb ".as_slice(),
        ProcKind::Ff => b"ff ".as_slice(),
    }
}

fn say_params(params: &Items<(Option<Boxed<TypeTree>>, Boxed<Declared>)>, out: &mut Saying) {
    out.put(b" #(");
    for (kind, what) in params.as_slice() {
        say_kind(kind, out);
        out.put(b" ");
        say_declared(what.get(), out);
        out.put(b";");
    }
    out.put(b")");
}

fn say_ports(ports: &Items<Port>, out: &mut Saying) {
    out.put(b" (");
    for port in ports.as_slice() {
        say_place(port.at, out);
        out.put(said_way(port.way));
        out.put(said_port_kind(port.kind));
        say_typed(&port.of, &port.what, out);
        out.put(b";");
    }
    out.put(b")");
}

fn say_conns(conns: &Items<Conn>, out: &mut Saying) {
    out.put(b"(");
    for conn in conns.as_slice() {
        say_place(conn.at, out);
        if let Some(name) = &conn.name {
            out.put(b".");
            out.put(name.items());
            out.put(b"=");
        }
        match &conn.value {
            None => out.put(b"_"),
            Some(value) => say_expr(value.get(), out),
        }
        out.put(b";");
    }
    out.put(b")");
}

fn said_stmt(stmt: &Stmt) -> &'static [u8] {
    match stmt {
        Stmt::Null { .. } => b"null".as_slice(),
        Stmt::Block { .. } => b"block".as_slice(),
        Stmt::Assign { .. } => b"assign".as_slice(),
        Stmt::Nonblocking { .. } => b"nonblocking".as_slice(),
        Stmt::If { .. } => b"if".as_slice(),
        Stmt::Event { .. } => b"event".as_slice(),
        Stmt::Delay { .. } => b"delay".as_slice(),
        Stmt::Return { .. } => b"return".as_slice(),
        Stmt::Call { .. } => b"call".as_slice(),
        _ => b"stmt".as_slice(),
    }
}

fn say_function(item: &FunctionItem, out: &mut Saying) {
    out.put(b"function ");
    out.put(if item.automatic {
        b"own ".as_slice()
    } else {
        b"".as_slice()
    });
    say_type(item.result.get(), out);
    out.put(b" ");
    say_name(item.at, &item.name, out);
    out.put(b"(");
    for (of, what, many) in item.args.as_slice() {
        say_typed(of, what, out);
        out.put(if *many {
            b"[];".as_slice()
        } else {
            b";".as_slice()
        });
    }
    out.put(b"){");
    for (of, what) in item.locals.as_slice() {
        say_typed(of, what, out);
        out.put(b";");
    }
    for stmt in item.body.as_slice() {
        out.put(said_stmt(stmt));
        out.put(b";");
    }
    out.put(b"}");
}

fn say_nettype(item: &NettypeItem, out: &mut Saying) {
    out.put(b"nettype ");
    say_type(item.base.get(), out);
    out.put(b" ");
    say_name(item.at, &item.name, out);
    if let Some(path) = &item.resolver {
        out.put(b" with ");
        say_path(path, out);
    }
}

fn say_import(at: Place, scope: &Name, name: &Option<Name>, out: &mut Saying) {
    out.put(b"import ");
    say_name(at, scope, out);
    out.put(b"::");
    match name {
        None => out.put(b"*"),
        Some(name) => out.put(name.items()),
    }
}

fn say_instance(
    at: Place,
    module_at: Place,
    of: &Name,
    params: &Items<Conn>,
    name: &Name,
    ports: &Items<Conn>,
    out: &mut Saying,
) {
    out.put(b"instance ");
    say_name(module_at, of, out);
    out.put(b" #");
    say_conns(params, out);
    out.put(b" ");
    say_name(at, name, out);
    say_conns(ports, out);
}

fn say_assign(at: Place, left: &Boxed<Expr>, right: &Boxed<Expr>, out: &mut Saying) {
    say_place(at, out);
    out.put(b"assign ");
    say_expr(left.get(), out);
    out.put(b" = ");
    say_expr(right.get(), out);
}

fn say_procedure(item: &ProcedureItem, out: &mut Saying) {
    say_place(item.at, out);
    out.put(said_proc_kind(item.kind));
    out.put(said_stmt(item.body.get()));
}

/// Adds the text of an item.
#[cycle(say_items)]
fn say_item(item: &Item, out: &mut Saying) {
    match item {
        Item::Package { at, name, items } => {
            out.put(b"package ");
            say_name(*at, name, out);
            out.put(b" { ");
            say_items(items, out);
            out.put(b"}");
        }
        Item::Module {
            at,
            name,
            params,
            ports,
            items,
        } => {
            out.put(b"module ");
            say_name(*at, name, out);
            say_params(params, out);
            say_ports(ports, out);
            out.put(b" { ");
            say_items(items, out);
            out.put(b"}");
        }
        Item::Import { at, scope, name } => say_import(*at, scope, name, out),
        Item::Typedef { at, kind, what } => {
            say_place(*at, out);
            out.put(b"typedef ");
            say_typed(kind, what, out);
        }
        Item::Nettype(item) => say_nettype(item, out),
        Item::Function(item) => say_function(item, out),
        Item::Param {
            at,
            local,
            kind,
            what,
        } => {
            say_place(*at, out);
            out.put(if *local {
                b"localparam ".as_slice()
            } else {
                b"parameter ".as_slice()
            });
            say_kind(kind, out);
            out.put(b" ");
            say_declared(what.get(), out);
        }
        Item::Net { at, kind, of, what } => {
            say_place(*at, out);
            out.put(b"net ");
            out.put(said_port_kind(*kind));
            say_typed(of, what, out);
        }
        Item::Var { at, of, what } => {
            say_place(*at, out);
            out.put(b"var ");
            say_typed(of, what, out);
        }
        Item::Assign { at, left, right } => say_assign(*at, left, right, out),
        Item::Instance {
            at,
            module_at,
            module,
            params,
            name,
            ports,
        } => say_instance(*at, *module_at, module, params, name, ports, out),
        Item::Procedure(item) => say_procedure(item, out),
    }
}

/// Adds the texts of items, each before a blank.
#[cycle(say_items)]
pub(crate) fn say_items(items: &Items<Item>, out: &mut Saying) {
    for item in items.as_slice() {
        say_item(item, out);
        out.put(b"; ");
    }
}
