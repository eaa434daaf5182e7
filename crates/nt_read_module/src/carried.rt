// What ports and parameters take over from the one before.
ghost use Rattle.std.specs.Prelude.{◌≡◌, IfOk, None};
ghost use Rattle.nt_read_module.specs.Carried as spec;

use nt_ast::{Declared, TypeTree, copy_type};
use nt_items::{Item, Port, PortKind, Way, copy_declared, copy_kind};
use nt_read_item::type_at;
use nt_value::{Name, Place};
use sqlite_items::{Boxed, Items};
use std::alloc::{AllocError, Global};

/// A port as it is written (IEEE 1800-2017, A.1.3).
#[derive(Drop)]
pub struct PortText {
    pub way: Option<Way>,
    pub kind: Option<PortKind>,
    pub of: Option<Boxed<TypeTree>>,
    pub what: Boxed<Declared>,
}

/// A parameter as it is written in the list of a module, and whether the word `parameter` is (IEEE 1800-2017, A.1.3).
#[derive(Drop)]
pub struct ParamText {
    pub word: bool,
    pub of: Option<Boxed<TypeTree>>,
    pub what: Boxed<Declared>,
}

/// What a port may take over from the one before.
#[derive(Drop)]
pub struct Before {
    pub way: Way,
    pub kind: PortKind,
    pub of: Boxed<TypeTree>,
}

/// The head of a module.
#[derive(Drop)]
pub struct Head {
    pub at: Place,
    pub name: Name,
    pub imports: Items<Item>,
    pub params: Items<(Option<Boxed<TypeTree>>, Boxed<Declared>)>,
    pub ports: Items<Port>,
}

/// Whether nothing is written but the name.
fn is_bare_port(text: &PortText) -> bool
    ensures { result ≡ spec.is_bare_port text.now }
{
    if text.way.is_some() {
        return false;
    }
    if text.kind.is_some() {
        return false;
    }
    if text.of.is_some() {
        return false;
    }
    text.what.get().dims.is_empty()
}

/// The direction: the one that is written, else that of the port before, else `inout`.
fn way_after(before: &Option<Before>, written: Option<Way>) -> Way
    ensures { result ≡ spec.way_after before.now written }
{
    match written {
        Some(way) => way,
        None => match before {
            Some(before) => before.way,
            None => Way::Inout,
        },
    }
}

/// What the port is: what is written; an output without a written type is a wire; else its type decides.
fn kind_after(written: Option<PortKind>, way: Way, of: &Option<Boxed<TypeTree>>) -> PortKind
    ensures { result ≡ spec.kind_after written way of.now }
{
    match written {
        Some(kind) => kind,
        None => match way {
            Way::Output => match of {
                None => PortKind::Wire,
                Some(_) => PortKind::ByType,
            },
            _ => PortKind::ByType,
        },
    }
}

fn own_port(alloc: Global, before: &Option<Before>, text: &PortText) -> Result<Port, AllocError>
    ensures { IfOk result (λ q. q ≡ spec.own_port before.now text.now) }
{
    let at = text.what.get().at;
    let way = way_after(before, text.way);
    let kind = kind_after(text.kind, way, &text.of);
    let of = type_at(alloc, &text.of, at)?;
    let what = copy_declared(alloc, &text.what)?;
    Ok(Port {
        at,
        way,
        kind,
        of,
        what,
    })
}

/// The port that is written so, after such a one.
fn port_after(alloc: Global, before: &Option<Before>, text: &PortText) -> Result<Port, AllocError>
    ensures { IfOk result (λ q. q ≡ spec.port_after before.now text.now) }
{
    if !is_bare_port(text) {
        return own_port(alloc, before, text);
    }
    let Some(found) = before else {
        return own_port(alloc, before, text);
    };
    let of = Boxed::new(alloc, copy_type(alloc, found.of.get())?)?;
    let what = copy_declared(alloc, &text.what)?;
    Ok(Port {
        at: text.what.get().at,
        way: found.way,
        kind: found.kind,
        of,
        what,
    })
}

/// What the next port takes over of a port.
fn of_port(alloc: Global, port: &Port) -> Result<Before, AllocError>
    ensures { IfOk result (λ b. b ≡ spec.of_port port.now) }
{
    let of = Boxed::new(alloc, copy_type(alloc, port.of.get())?)?;
    Ok(Before {
        way: port.way,
        kind: port.kind,
        of,
    })
}

/// The ports that are written so.
#[tactic(auto, unfolding(crate::specs::Carried::ports_from))]
pub(crate) fn ports_from(alloc: Global, texts: &Items<PortText>) -> Result<Items<Port>, AllocError>
    ensures { IfOk result (λ qs. qs ≡ spec.ports_from None texts.now) }
{
    let mut all = Items::new(alloc);
    let mut before = None;
    for text in texts.as_slice() {
        let port = port_after(alloc, &before, text)?;
        before = Some(of_port(alloc, &port)?);
        all.push(port)?;
    }
    Ok(all)
}

/// The type of a parameter: what is written, or, without the word `parameter`, that of the one before.
fn param_type(
    alloc: Global,
    before: &Option<Boxed<TypeTree>>,
    text: &ParamText,
) -> Result<Option<Boxed<TypeTree>>, AllocError>
    ensures { IfOk result (λ x. x ≡ spec.param_type before.now text.now) }
{
    if text.word {
        return copy_kind(alloc, &text.of);
    }
    match &text.of {
        None => copy_kind(alloc, before),
        Some(_) => copy_kind(alloc, &text.of),
    }
}

/// The parameters that are written so.
#[tactic(auto, unfolding(crate::specs::Carried::params_from))]
pub(crate) fn params_from(
    alloc: Global,
    texts: &Items<ParamText>,
) -> Result<Items<(Option<Boxed<TypeTree>>, Boxed<Declared>)>, AllocError>
    ensures { IfOk result (λ ps. ps ≡ spec.params_from None texts.now) }
{
    let mut all = Items::new(alloc);
    let mut before = None;
    for text in texts.as_slice() {
        let kind = param_type(alloc, &before, text)?;
        before = copy_kind(alloc, &kind)?;
        let what = copy_declared(alloc, &text.what)?;
        all.push((kind, what))?;
    }
    Ok(all)
}
