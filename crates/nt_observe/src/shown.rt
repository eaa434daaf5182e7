// The text of a slot.
ghost use Rattle.std.specs.Prelude.{◌≡◌, ◌++◌, ◌∷◌, [], OnOk, option_map, decimal, filter};
ghost use Rattle.std.specs.List.{flat_map};
ghost use Rattle.nt_value.specs.Texts.{value_text};
ghost use Rattle.nt_semantics.specs.Same.{is_same};
ghost use Rattle.nt_semantics.specs.Texts.{displayed_line, end_text, finish_text, object_line, path_of, value_seen};
ghost use Rattle.nt_semantics.specs.Texts.{is_changed as differs};
ghost use Rattle.nt_runs.specs.Views.{observed};
ghost use Rattle.nt_observe.specs.Ends.{seen_before};
ghost use Rattle.nt_observe.specs.Shown.{or_none, shown_of, text_of};

use nt_design::{Design, Object};
use nt_runs::Seen;
use nt_value::{Text, Value, print, same};
use std::alloc::AllocError;

fn path_of(design: &Design, object: Object) -> &[u8]
    ensures { result.now ≡ path_of design.now object }
{
    match object {
        Object::Net(net) => match design.nets.as_slice().get(net as usize) {
            Some(net) => net.name.items(),
            None => &[],
        },
        Object::Var(var) => match design.vars.as_slice().get(var as usize) {
            Some(var) => var.name.items(),
            None => &[],
        },
    }
}

fn value_of(seen: &Seen, object: Object) -> Option<&Value>
    ensures { or_none (option_map (λ v. v.now) result) ≡ value_seen (observed seen.now) object }
{
    match object {
        Object::Net(net) => seen.nets.as_slice().get(net as usize),
        Object::Var(var) => seen.vars.as_slice().get(var as usize),
    }
}

fn print_value(value: Option<&Value>, out: &mut Text) -> Result<(), AllocError>
    ensures { OnOk result (out.new ≡ out.old ++ value_text (or_none (option_map (λ v. v.now) value.entry))) }
{
    match value {
        Some(value) => print(value, out),
        None => out.push_bytes(b"{}"),
    }
}

fn print_object(
    design: &Design,
    seen: &Seen,
    object: Object,
    out: &mut Text,
) -> Result<(), AllocError>
    ensures { OnOk result (out.new ≡ out.old ++ object_line design.now (observed seen.now) object) }
{
    out.push_bytes(path_of(design, object))?;
    out.push_bytes(b" = ")?;
    print_value(value_of(seen, object), out)?;
    out.push(b'\n')?;
    Ok(())
}

fn is_same(a: &Value, b: &Value) -> bool
    ensures { result ≡ is_same a.now b.now }
{
    same(a, b)
}

fn is_same_seen(a: Option<&Value>, b: Option<&Value>) -> bool
    ensures { result ≡ is_same (or_none (option_map (λ v. v.now) a.entry)) (or_none (option_map (λ v. v.now) b.entry)) }
{
    match (a, b) {
        (Some(a), Some(b)) => is_same(a, b),
        (None, Some(b)) => b.items().is_empty(),
        (Some(a), None) => a.items().is_empty(),
        (None, None) => true,
    }
}

fn is_changed(before: &Seen, seen: &Seen, object: Object) -> bool
    ensures { result ≡ differs (observed before.now) (observed seen.now) object }
{
    !is_same_seen(value_of(before, object), value_of(seen, object))
}

fn print_all(
    design: &Design,
    objects: &[Object],
    seen: &Seen,
    out: &mut Text,
) -> Result<(), AllocError>
    ensures { OnOk result (out.new ≡ out.old ++ flat_map (object_line design.now (observed seen.now)) objects.now) }
{
    for object in objects {
        print_object(design, seen, *object, out)?;
    }
    Ok(())
}

fn print_changed(
    design: &Design,
    objects: &[Object],
    before: &Seen,
    seen: &Seen,
    out: &mut Text,
) -> Result<(), AllocError>
    ensures { OnOk result (out.new ≡ out.old ++ flat_map (object_line design.now (observed seen.now)) (filter (differs (observed before.now) (observed seen.now)) objects.now)) }
{
    for object in objects {
        if is_changed(before, seen, *object) {
            print_object(design, seen, *object, out)?;
        }
    }
    Ok(())
}

fn print_objects(
    design: &Design,
    objects: &[Object],
    before: &Option<Seen>,
    seen: &Seen,
    out: &mut Text,
) -> Result<(), AllocError>
    ensures { OnOk result (out.new ≡ out.old ++ flat_map (object_line design.now (observed seen.now)) (shown_of objects.now (seen_before before.now) (observed seen.now))) }
{
    match before {
        None => print_all(design, objects, seen, out),
        Some(before) => print_changed(design, objects, before, seen, out),
    }
}

fn print_lines(lines: &[Text], out: &mut Text) -> Result<(), AllocError>
    ensures { OnOk result (out.new ≡ out.old ++ flat_map displayed_line lines.now) }
{
    for line in lines {
        out.push_bytes(b"| ")?;
        out.push_bytes(line.items())?;
        out.push(b'\n')?;
    }
    Ok(())
}

fn print_moment(time: u64, out: &mut Text) -> Result<(), AllocError>
    ensures { OnOk result (out.new ≡ out.old ++ (35 ∷ (decimal time ++ (10 ∷ [])))) }
{
    out.push(b'#')?;
    out.push_number(time)?;
    out.push(b'\n')?;
    Ok(())
}

/// Adds what is seen of a slot: its moment, its displayed lines, and these objects with their values, of which all are shown where there was no
/// slot before, and else those that changed. `objects` are those of `objects_of`, in their order.
///
/// # Errors
///
/// `AllocError` alone. The text may hold a part then.
pub fn trace_slot(
    design: &Design,
    objects: &[Object],
    before: &Option<Seen>,
    seen: &Seen,
    out: &mut Text,
) -> Result<(), AllocError>
    ensures { OnOk result (out.new ≡ out.old ++ text_of design.now objects.now (seen_before before.now) (observed seen.now)) }
{
    print_moment(seen.time, out)?;
    print_lines(seen.shown.as_slice(), out)?;
    print_objects(design, objects, before, seen, out)?;
    Ok(())
}

/// Adds the end of a run to this time limit.
///
/// # Errors
///
/// `AllocError` alone. The text may hold a part then.
pub fn print_end(until: u64, out: &mut Text) -> Result<(), AllocError>
    ensures { OnOk result (out.new ≡ out.old ++ end_text until) }
{
    out.push_bytes(b"end ")?;
    out.push_number(until)?;
    out.push(b'\n')?;
    Ok(())
}

/// Adds the end of a run in which `$finish` was met in the slot of this moment.
///
/// # Errors
///
/// `AllocError` alone. The text may hold a part then.
pub fn print_finish(moment: u64, out: &mut Text) -> Result<(), AllocError>
    ensures { OnOk result (out.new ≡ out.old ++ finish_text moment) }
{
    out.push_bytes(b"finish ")?;
    out.push_number(moment)?;
    out.push(b'\n')?;
    Ok(())
}
