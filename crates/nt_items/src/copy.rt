// Copies of items.
ghost use Rattle.std.specs.Prelude.{◌≡◌, IfOk};
ghost use Rattle.nt_items.specs.declared.item.Item.TheVariants as variant;

use crate::copy_parts::{
    copy_args, copy_body, copy_conns, copy_declared, copy_expr_box, copy_kind, copy_locals,
    copy_name, copy_params, copy_path, copy_ports, copy_stmt_box, copy_type_box,
};
use crate::{Conn, FunctionItem, Item, NettypeItem, ProcedureItem};
use nt_value::{Name, Place};
use sqlite_items::Items;
use std::alloc::{AllocError, Global};

/// An equal tree.
pub fn copy_function(alloc: Global, item: &FunctionItem) -> Result<FunctionItem, AllocError>
    ensures { IfOk result (λ copy. copy ≡ item.now) }
{
    let result = copy_type_box(alloc, &item.result)?;
    let name = item.name.copy(alloc)?;
    let args = copy_args(alloc, &item.args)?;
    let locals = copy_locals(alloc, &item.locals)?;
    let body = copy_body(alloc, &item.body)?;
    Ok(FunctionItem {
        at: item.at,
        automatic: item.automatic,
        result,
        name,
        args,
        locals,
        body,
    })
}

fn copy_nettype(alloc: Global, item: &NettypeItem) -> Result<NettypeItem, AllocError>
    ensures { IfOk result (λ copy. copy ≡ item.now) }
{
    let base = copy_type_box(alloc, &item.base)?;
    let name = item.name.copy(alloc)?;
    let resolver = copy_path(alloc, &item.resolver)?;
    Ok(NettypeItem {
        at: item.at,
        base,
        name,
        resolver,
    })
}

fn copy_procedure(alloc: Global, item: &ProcedureItem) -> Result<ProcedureItem, AllocError>
    ensures { IfOk result (λ copy. copy ≡ item.now) }
{
    let body = copy_stmt_box(alloc, &item.body)?;
    Ok(ProcedureItem {
        at: item.at,
        kind: item.kind,
        body,
    })
}

fn copy_instance(
    alloc: Global,
    at: Place,
    module_at: Place,
    of: &Name,
    params: &Items<Conn>,
    name: &Name,
    ports: &Items<Conn>,
) -> Result<Item, AllocError>
    ensures { IfOk result (λ copy. copy ≡ variant.Instance at module_at of.now params.now name.now ports.now) }
{
    let module = of.copy(alloc)?;
    let params = copy_conns(alloc, params)?;
    let name = name.copy(alloc)?;
    let ports = copy_conns(alloc, ports)?;
    Ok(Item::Instance {
        at,
        module_at,
        module,
        params,
        name,
        ports,
    })
}

/// An equal tree.
#[cycle(copy_items)]
pub fn copy_item(alloc: Global, item: &Item) -> Result<Item, AllocError>
    ensures { IfOk result (λ copy. copy ≡ item.now) }
{
    match item {
        Item::Package { at, name, items } => {
            let name = name.copy(alloc)?;
            let items = copy_items(alloc, items)?;
            Ok(Item::Package {
                at: *at,
                name,
                items,
            })
        }
        Item::Module {
            at,
            name,
            params,
            ports,
            items,
        } => {
            let name = name.copy(alloc)?;
            let params = copy_params(alloc, params)?;
            let ports = copy_ports(alloc, ports)?;
            let items = copy_items(alloc, items)?;
            Ok(Item::Module {
                at: *at,
                name,
                params,
                ports,
                items,
            })
        }
        Item::Import { at, scope, name } => {
            let scope = scope.copy(alloc)?;
            let name = copy_name(alloc, name)?;
            Ok(Item::Import {
                at: *at,
                scope,
                name,
            })
        }
        Item::Typedef { at, kind, what } => {
            let kind = copy_type_box(alloc, kind)?;
            let what = copy_declared(alloc, what)?;
            Ok(Item::Typedef {
                at: *at,
                kind,
                what,
            })
        }
        Item::Nettype(item) => Ok(Item::Nettype(copy_nettype(alloc, item)?)),
        Item::Function(item) => Ok(Item::Function(copy_function(alloc, item)?)),
        Item::Param {
            at,
            local,
            kind,
            what,
        } => {
            let kind = copy_kind(alloc, kind)?;
            let what = copy_declared(alloc, what)?;
            Ok(Item::Param {
                at: *at,
                local: *local,
                kind,
                what,
            })
        }
        Item::Net { at, kind, of, what } => {
            let of = copy_type_box(alloc, of)?;
            let what = copy_declared(alloc, what)?;
            Ok(Item::Net {
                at: *at,
                kind: *kind,
                of,
                what,
            })
        }
        Item::Var { at, of, what } => {
            let of = copy_type_box(alloc, of)?;
            let what = copy_declared(alloc, what)?;
            Ok(Item::Var { at: *at, of, what })
        }
        Item::Assign { at, left, right } => {
            let left = copy_expr_box(alloc, left)?;
            let right = copy_expr_box(alloc, right)?;
            Ok(Item::Assign {
                at: *at,
                left,
                right,
            })
        }
        Item::Instance {
            at,
            module_at,
            module,
            params,
            name,
            ports,
        } => copy_instance(alloc, *at, *module_at, module, params, name, ports),
        Item::Procedure(item) => Ok(Item::Procedure(copy_procedure(alloc, item)?)),
    }
}

#[cycle(copy_items)]
fn copy_items(alloc: Global, items: &Items<Item>) -> Result<Items<Item>, AllocError>
    ensures { IfOk result (λ copy. copy ≡ items.now) }
{
    let mut all = Items::new(alloc);
    for item in items.as_slice() {
        all.push(copy_item(alloc, item)?)?;
    }
    Ok(all)
}
