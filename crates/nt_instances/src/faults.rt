// The faults of instances.
ghost use Rattle.std.specs.Prelude.{◌≡◌, ◌≤◌, IfOk, length, slice_get};
ghost use Rattle.nt_diag.specs.Order.{IsLeastOf, Among, AmongAll};
ghost use Rattle.nt_items.specs.declared.item.Item.TheViews.{out-Item};
ghost use Rattle.nt_instances.specs.Faults.{HeadFault, InstanceFault, ModuleFault, PastFault, RowFault, RowsFault};
ghost use Rattle.nt_instances.specs.Modules.{items_of};

use crate::Modules;
use crate::conns::conns_fault;
use crate::rows::{Row, is_open};
use crate::walk::MOST_INSTANCES;
use nt_diag::{Refusal, Rule, earlier};
use nt_items::{Conn, Item};
use nt_value::Place;
use std::alloc::{AllocError, Global};

fn module_fault(row: &Row, at: Place, found: Option<usize>) -> Option<Refusal>
    ensures { IsLeastOf (ModuleFault row.now at found) result }
{
    match found {
        None => Some(Refusal {
            rule: Rule::P1,
            place: at,
        }),
        Some(definition) => {
            if is_open(row, definition) {
                Some(Refusal {
                    rule: Rule::P6,
                    place: at,
                })
            } else {
                None
            }
        }
    }
}

// The connections of an instance whose module is there.
fn head_fault(
    alloc: Global,
    modules: &Modules,
    params: &[Conn],
    ports: &[Conn],
    found: Option<usize>,
) -> Result<Option<Refusal>, AllocError>
    ensures { IfOk result (λ f. IsLeastOf (HeadFault modules.now params.now ports.now found) f) }
{
    let Some(found) = found else {
        return Ok(None);
    };
    let param_names = modules.param_names(alloc, found)?;
    let of_params = conns_fault(alloc, Rule::P7, &param_names, params)?;
    let port_names = modules.port_names(alloc, found)?;
    let of_ports = conns_fault(alloc, Rule::P2, &port_names, ports)?;
    Ok(earlier(of_params, of_ports))
}

fn item_fault(
    alloc: Global,
    modules: &Modules,
    row: &Row,
    number: usize,
    item: &Item,
) -> Result<Option<Refusal>, AllocError>
    ensures { IfOk result (λ f. IsLeastOf (InstanceFault modules.now row.now number (out-Item item.now)) f) }
{
    match item {
        Item::Instance {
            module_at,
            module,
            params,
            ports,
            ..
        } => {
            let found = modules.find(module);
            let of_module = module_fault(row, *module_at, found);
            let of_head = head_fault(alloc, modules, params.as_slice(), ports.as_slice(), found)?;
            Ok(earlier(of_module, of_head))
        }
        _ => Ok(None),
    }
}

fn row_fault(
    alloc: Global,
    modules: &Modules,
    number: usize,
    row: &Row,
) -> Result<Option<Refusal>, AllocError>
    ensures { IfOk result (λ f. IsLeastOf (RowFault modules.now number row.now) f) }
{
    let items = modules.items(row.definition);
    let mut best = None;
    for k in 0..items.len() {
        best = earlier(best, item_fault(alloc, modules, row, k, &items[k])?);
    }
    Ok(best)
}

fn past_fault(rows: &[Row]) -> Option<Refusal>
    ensures { IsLeastOf (PastFault rows.now) result }
{
    let row = rows.get(MOST_INSTANCES)?;
    Some(Refusal {
        rule: Rule::P8,
        place: row.at,
    })
}

fn first_rows_fault(
    alloc: Global,
    modules: &Modules,
    rows: &[Row],
    limit: usize,
) -> Result<Option<Refusal>, AllocError>
    requires { limit ≤ length rows.now }
    ensures { IfOk result (λ f. IsLeastOf (Among (RowFault modules.now) limit rows.now) f) }
{
    let mut best = None;
    for number in 0..limit {
        best = earlier(best, row_fault(alloc, modules, number, &rows[number])?);
    }
    Ok(best)
}

/// The least fault of instances (IEEE 1800-2017, 23.3): P1 where there is no such module, P2 and P7 at a connection of a port or a parameter
/// that the module does not have or that an earlier one connects, P6 at a module inside itself, P8 at the instance past the limit.
///
/// # Errors
///
/// `AllocError` alone.
pub fn rows_fault(
    alloc: Global,
    modules: &Modules,
    rows: &[Row],
) -> Result<Option<Refusal>, AllocError>
    ensures { IfOk result (λ f. IsLeastOf (RowsFault modules.now rows.now) f) }
{
    let of_rows = first_rows_fault(alloc, modules, rows, MOST_INSTANCES.min(rows.len()))?;
    Ok(earlier(of_rows, past_fault(rows)))
}
