// The lines of entries.
ghost use Rattle.std.specs.Prelude.{◌≡◌, ◌++◌, IfOk, OnOk, OnErr};
ghost use Rattle.nt_semantics.specs.declared.event.Event.TheVariants.{Stmt, Assign as AssignEvent, Resolve};
ghost use Rattle.nt_semantics.specs.Texts.{order_text, event_line, entry_lines};
ghost use Rattle.nt_witness.specs.Fronts.{GainsFront};

use nt_semantics::{Entry, Event};
use nt_value::Text;
use std::alloc::{AllocError, Global};

fn print_order(order: &[u32], out: &mut Text) -> Result<(), AllocError>
    ensures text { OnOk result (out.new ≡ out.old ++ order_text order.now) }
    ensures front { OnErr result (GainsFront out.old out.new (order_text order.now)) }
{
    for slot in order {
        out.push(b' ')?;
        out.push_number(u64::from(*slot))?;
    }
    Ok(())
}

fn print_evaluation(assign: u32, count: u64, out: &mut Text) -> Result<(), AllocError>
    ensures text { OnOk result (out.new ≡ out.old ++ event_line (AssignEvent assign) count) }
    ensures front { OnErr result (GainsFront out.old out.new (event_line (AssignEvent assign) count)) }
{
    out.push_bytes(b"a ")?;
    out.push_number(u64::from(assign))?;
    out.push(b' ')?;
    out.push_number(count)?;
    out.push(b'\n')?;
    Ok(())
}

fn print_resolution(net: u32, count: u64, order: &[u32], out: &mut Text) -> Result<(), AllocError>
    ensures text { OnOk result (out.new ≡ out.old ++ event_line (Resolve net order.now) count) }
    ensures front { OnErr result (GainsFront out.old out.new (event_line (Resolve net order.now) count)) }
{
    out.push_bytes(b"r ")?;
    out.push_number(u64::from(net))?;
    out.push(b' ')?;
    out.push_number(count)?;
    print_order(order, out)?;
    out.push(b'\n')?;
    Ok(())
}

fn print_statement(proc: u32, out: &mut Text) -> Result<(), AllocError>
    ensures text { OnOk result (out.new ≡ out.old ++ event_line (Stmt proc) 1) }
    ensures front { OnErr result (GainsFront out.old out.new (event_line (Stmt proc) 1)) }
{
    out.push_bytes(b"s ")?;
    out.push_number(u64::from(proc))?;
    out.push(b'\n')?;
    Ok(())
}

fn print_event(event: &Event, count: u64, out: &mut Text) -> Result<(), AllocError>
    ensures text { OnOk result (out.new ≡ out.old ++ event_line event.now count) }
    ensures front { OnErr result (GainsFront out.old out.new (event_line event.now count)) }
{
    match event {
        Event::Stmt { proc } => print_statement(*proc, out),
        Event::Update => out.push_bytes(b"u\n"),
        Event::Assign { assign } => print_evaluation(*assign, count, out),
        Event::Resolve { net, order } => print_resolution(*net, count, order.items(), out),
    }
}

/// Adds a line for each entry, as a witness has it.
///
/// # Errors
///
/// Where memory is refused. The text gained a front of the lines then.
pub fn print_entries(entries: &[Entry], out: &mut Text) -> Result<(), AllocError>
    ensures text { OnOk result (out.new ≡ out.old ++ entry_lines entries.now) }
    ensures front { OnErr result (GainsFront out.old out.new (entry_lines entries.now)) }
{
    for entry in entries {
        print_event(&entry.event, entry.count, out)?;
    }
    Ok(())
}

/// The lines of these entries.
///
/// # Errors
///
/// Where memory is refused.
pub fn text_of_entries(alloc: Global, entries: &[Entry]) -> Result<Text, AllocError>
    ensures { IfOk result (λ text. text ≡ entry_lines entries.now) }
{
    let mut text = Text::new(Vec::new(alloc));
    print_entries(entries, &mut text)?;
    Ok(text)
}
