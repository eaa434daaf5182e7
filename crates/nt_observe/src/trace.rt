// The slots of a run, each written to a trace at its end.
ghost use Rattle.std.specs.Prelude.{◌≡◌, IfOk, None};
ghost use Rattle.nt_semantics.specs.Texts.{objects_of as shown_in};
ghost use Rattle.nt_runs.specs.Views.{observed};
ghost use Rattle.nt_observe.specs.Ends.{Traced, TracedInPart, seen_before};
ghost use Rattle.nt_observe.specs.Shown.{text_of as slot_text_of};

use crate::objects::objects_of;
use crate::shown::trace_slot;
use nt_design::{Design, Object};
use nt_io::{Sink, write_all};
use nt_runs::{Seen, SlotEnd, SlotEndStop};
use nt_value::{Text, Value, copy};
use sqlite_items::Items;
use std::alloc::{AllocError, Global};
use std::snapshot::Snapshot;

fn copy_values(alloc: Global, values: &Items<Value>) -> Result<Items<Value>, AllocError>
    ensures { IfOk result (λ all. all ≡ values.now) }
{
    let mut all = Items::new(alloc);
    for value in values.as_slice() {
        all.push(copy(alloc, value)?)?;
    }
    Ok(all)
}

fn copy_lines(alloc: Global, lines: &Items<Text>) -> Result<Items<Text>, AllocError>
    ensures { IfOk result (λ all. all ≡ lines.now) }
{
    let mut all = Items::new(alloc);
    for line in lines.as_slice() {
        all.push(line.copy(alloc)?)?;
    }
    Ok(all)
}

fn copy_seen(alloc: Global, seen: &Seen) -> Result<Seen, AllocError>
    ensures { IfOk result (λ copy. copy ≡ seen.now) }
{
    let vars = copy_values(alloc, &seen.vars)?;
    let nets = copy_values(alloc, &seen.nets)?;
    let shown = copy_lines(alloc, &seen.shown)?;
    Ok(Seen {
        time: seen.time,
        vars,
        nets,
        shown,
    })
}

/// What a trace keeps: the objects that it shows, and what was seen of the last slot.
#[derive(Drop)]
pub struct Kept {
    objects: Items<Object>,
    before: Option<Seen>,
}

/// A trace to which each slot is written at its end, by one `write_all`. `K` is `Kept`.
pub struct TraceEnd<'a, O, K: Drop> {
    trace: &'a mut O,
    alloc: Global,
    design: &'a Design,
    kept: K,
    start: Snapshot<O>,
}

/// What a trace of this design keeps before its first slot.
///
/// # Errors
///
/// `AllocError` alone.
pub fn kept_at_start(alloc: Global, design: &Design) -> Result<Kept, AllocError>
    ensures objects { IfOk result (λ k. k.objects ≡ shown_in design.now) }
    ensures before { IfOk result (λ k. k.before ≡ None) }
{
    Ok(Kept {
        objects: objects_of(alloc, design)?,
        before: None,
    })
}

impl<'a, O: Sink> TraceEnd<'a, O, Kept> {
    /// A trace that has no slot yet. What it keeps is that of `kept_at_start`.
    pub fn new(
        alloc: Global,
        design: &'a Design,
        kept: Kept,
        trace: &'a mut O,
    ) -> TraceEnd<'a, O, Kept>
        ensures same_reference { result.trace.ghost_name ≡ trace.entry.ghost_name }
        ensures now { result.trace.now ≡ trace.old }
        ensures start { result.start.value ≡ trace.old }
        ensures design { result.design.now ≡ design.now }
        ensures kept { result.kept ≡ kept }
    {
        let start = Snapshot::of(&*trace);
        TraceEnd {
            trace,
            alloc,
            design,
            kept,
            start,
        }
    }
}

impl<O, K: Drop> Drop for TraceEnd<'_, O, K> {
    fn drop(self)
        ensures { self.exit.0.now ≡ self.entry.trace.now }
    {
        let TraceEnd {
            trace: _,
            alloc: _,
            design: _,
            kept: _,
            start: _,
        } = self;
    }
}

fn text_of(
    alloc: Global,
    design: &Design,
    objects: &[Object],
    before: &Option<Seen>,
    seen: &Seen,
) -> Result<Text, AllocError>
    ensures { IfOk result (λ text. text ≡ slot_text_of design.now objects.now (seen_before before.now) (observed seen.now)) }
{
    let mut text = Text::new(Vec::new(alloc));
    trace_slot(design, objects, before, seen, &mut text)?;
    Ok(text)
}

impl<'a, O: Sink> SlotEnd for TraceEnd<'a, O, Kept> {
    ghost stands = { λ e slots. Traced e.design.now (O.meaning e.start.value) (O.meaning e.trace.now) e.kept.objects e.kept.before slots };

    ghost breaks = { λ e slots. TracedInPart e.design.now (O.meaning e.start.value) (O.meaning e.trace.now) slots };

    ghost faults = { λ e. (O.meaning e.trace.now).faults };

    ghost kept = { λ e. (e.trace.ghost_name, O.meaning e.start.value) };

    fn slot(&mut self, seen: &Seen) -> Result<(), SlotEndStop> {
        let copy = match copy_seen(self.alloc, seen) {
            Ok(copy) => copy,
            Err(refused) => return Err(SlotEndStop::OutOfMemory(refused)),
        };
        let text = match text_of(
            self.alloc,
            self.design,
            self.kept.objects.as_slice(),
            &self.kept.before,
            seen,
        ) {
            Ok(text) => text,
            Err(refused) => return Err(SlotEndStop::OutOfMemory(refused)),
        };
        match write_all(self.trace, text.items()) {
            Ok(()) => {
                self.kept.before = Some(copy);
                Ok(())
            }
            Err(fault) => Err(SlotEndStop::Write(fault)),
        }
    }
}
