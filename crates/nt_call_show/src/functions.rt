// The functions that cases call, and their design.
ghost use Rattle.std.specs.Prelude.{◌≡◌, ◌≤◌, ◌+◌, ◌++◌, IfOk, OnOk, [], ◌∷◌};
ghost use Rattle.nt_design.specs.WellFormed.{IsDesign};
ghost use Rattle.nt_design.specs.declared.tree.Tree.TheVariants as tree;
ghost use Rattle.nt_call_show.specs.Functions as functions;

use crate::parts::{binary, int, ints, local, number, pair, pairs, set, step};
use nt_design::{Act, Design, Function, Pick, Target, Tree};
use nt_value::{Base, Binary, Name, Place, Shape, Unit};
use sqlite_items::{Boxed, Items};
use std::alloc::{AllocError, Global};

const AT: Place = Place {
    file: 0,
    offset: 0,
    line: 1,
    column: 1,
};

const LINKS: u32 = 16;

/// The function without an end, the one that sums up, and the resolver: those after the chain of 17.
pub(crate) const ENDLESS: u32 = 17;

pub(crate) const SUM: u32 = 18;

pub(crate) const ADDER: u32 = 19;

// A function of one statement.
fn function(
    alloc: Global,
    args: Items<Shape>,
    locals: Items<Shape>,
    shape: Shape,
    body: Boxed<Act>,
) -> Result<Function, AllocError>
    ensures { IfOk result (λ f. f ≡ functions.function [] functions.place args locals shape body) }
{
    let mut acts = Items::new(alloc);
    acts.push(body.into_inner())?;
    Ok(Function {
        name: Name::new(Vec::new(alloc)),
        args,
        many: false,
        locals,
        result: shape,
        body: acts,
        at: AT,
    })
}

fn call_body(alloc: Global, next: u32) -> Result<Boxed<Act>, AllocError>
    ensures { IfOk result (λ a. a ≡ functions.link_body next functions.place) }
{
    let mut args = Items::new(alloc);
    let own = local(alloc, 0)?;
    args.push(own.into_inner())?;
    let call = Tree::Call {
        function: next,
        args,
    };
    Boxed::new(
        alloc,
        Act::Return {
            value: Some(call),
            at: AT,
        },
    )
}

fn link(alloc: Global, next: u32) -> Result<Function, AllocError>
    ensures { IfOk result (λ f. f ≡ functions.link [] functions.place next) }
{
    let body = call_body(alloc, next)?;
    function(alloc, ints(alloc)?, Items::new(alloc), int(alloc)?, body)
}

fn last(alloc: Global) -> Result<Function, AllocError>
    ensures { IfOk result (λ f. f ≡ functions.last [] functions.place) }
{
    let own = local(alloc, 0)?;
    let body = Boxed::new(
        alloc,
        Act::Return {
            value: Some(own.into_inner()),
            at: AT,
        },
    )?;
    function(alloc, ints(alloc)?, Items::new(alloc), int(alloc)?, body)
}

fn endless(alloc: Global) -> Result<Function, AllocError>
    ensures { IfOk result (λ f. f ≡ functions.endless [] functions.place) }
{
    let test = number(alloc, 1)?;
    let nothing = Boxed::new(alloc, Act::Null { at: AT })?;
    let body = Boxed::new(
        alloc,
        Act::While {
            test: test.into_inner(),
            body: nothing,
            at: AT,
        },
    )?;
    function(
        alloc,
        Items::new(alloc),
        Items::new(alloc),
        Shape::new(Vec::new(alloc)),
        body,
    )
}

fn below(alloc: Global) -> Result<Boxed<Tree>, AllocError>
    ensures { IfOk result (λ t. t ≡ functions.below) }
{
    let index = local(alloc, 2)?;
    let end = local(alloc, 0)?;
    binary(alloc, Binary::Lt, index, end)
}

fn next_index(alloc: Global) -> Result<Boxed<Act>, AllocError>
    ensures { IfOk result (λ a. a ≡ functions.next_index functions.place) }
{
    let by = number(alloc, 1)?;
    step(alloc, 2, by, AT)
}

fn grown_sum(alloc: Global) -> Result<Boxed<Act>, AllocError>
    ensures { IfOk result (λ a. a ≡ functions.grown_sum functions.place) }
{
    let by = local(alloc, 2)?;
    step(alloc, 1, by, AT)
}

fn sum_body(alloc: Global) -> Result<Boxed<Act>, AllocError>
    ensures { IfOk result (λ a. a ≡ functions.sum_body functions.place) }
{
    let test = below(alloc)?;
    let first = number(alloc, 0)?;
    let next = next_index(alloc)?;
    let body = grown_sum(alloc)?;
    Boxed::new(
        alloc,
        Act::For {
            fresh: true,
            left: Target::Local {
                local: 2,
                path: Items::new(alloc),
            },
            first: first.into_inner(),
            test: test.into_inner(),
            step: next,
            body,
            at: AT,
        },
    )
}

fn sum(alloc: Global) -> Result<Function, AllocError>
    ensures { IfOk result (λ f. f ≡ functions.sum [] functions.place) }
{
    let body = sum_body(alloc)?;
    function(alloc, ints(alloc)?, ints(alloc)?, int(alloc)?, body)
}

fn leaf_of(alloc: Global, of: Boxed<Tree>, leaf: u8) -> Result<Boxed<Tree>, AllocError>
    ensures { IfOk result (λ t. t ≡ tree.Leaves of leaf 1) }
{
    Boxed::new(
        alloc,
        Tree::Leaves {
            of,
            first: leaf,
            count: 1,
        },
    )
}

fn grown(alloc: Global, leaf: u8) -> Result<Boxed<Tree>, AllocError>
    ensures { IfOk result (λ t. t ≡ functions.grown leaf) }
{
    let own = leaf_of(alloc, local(alloc, 0)?, leaf)?;
    let index = local(alloc, 1)?;
    let element = Boxed::new(alloc, Tree::Element { index })?;
    let other = leaf_of(alloc, element, leaf)?;
    binary(alloc, Binary::Add, own, other)
}

fn grow(alloc: Global, leaf: u8) -> Result<Boxed<Act>, AllocError>
    ensures { IfOk result (λ a. a ≡ functions.grow leaf functions.place) }
{
    let right = grown(alloc, leaf)?;
    let mut path = Items::new(alloc);
    path.push(Pick::Leaves {
        first: leaf,
        count: 1,
    })?;
    Boxed::new(
        alloc,
        Act::Assign {
            left: Target::Local { local: 0, path },
            right: right.into_inner(),
            at: AT,
        },
    )
}

fn pair_body(alloc: Global) -> Result<Boxed<Act>, AllocError>
    ensures { IfOk result (λ a. a ≡ functions.pair_body functions.place) }
{
    let mut items = Items::new(alloc);
    let first = grow(alloc, 0)?;
    items.push(first.into_inner())?;
    let second = grow(alloc, 1)?;
    items.push(second.into_inner())?;
    let body = Boxed::new(alloc, Act::Block { items, at: AT })?;
    Boxed::new(
        alloc,
        Act::Foreach {
            bounds: None,
            index: 1,
            body,
            at: AT,
        },
    )
}

fn adder(alloc: Global) -> Result<Function, AllocError>
    ensures { IfOk result (λ f. f ≡ functions.adder [] functions.place) }
{
    let body = pair_body(alloc)?;
    let mut adder = function(alloc, pairs(alloc)?, ints(alloc)?, pair(alloc)?, body)?;
    adder.many = true;
    Ok(adder)
}

// The functions after the chain's links.
fn add_others(alloc: Global, to: &mut Items<Function>) -> Result<(), AllocError>
    ensures { OnOk result (to.new ≡ to.old ++ functions.links [] functions.place 0 0) }
{
    let last = last(alloc)?;
    to.push(last)?;
    let endless = endless(alloc)?;
    to.push(endless)?;
    let sum = sum(alloc)?;
    to.push(sum)?;
    let adder = adder(alloc)?;
    to.push(adder)?;
    Ok(())
}

// So many links of the chain from a number on, and the others.
fn add_links(
    alloc: Global,
    first: u32,
    count: u32,
    to: &mut Items<Function>,
) -> Result<(), AllocError>
    requires { first + count ≤ 16 }
    ensures { OnOk result (to.new ≡ to.old ++ functions.links [] functions.place first count) }
{
    if count == 0 {
        return add_others(alloc, to);
    }
    let next = link(alloc, first + 1)?;
    to.push(next)?;
    add_links(alloc, first + 1, count - 1, to)
}

/// A design of these functions alone.
pub(crate) fn design_of_functions(alloc: Global) -> Result<Design, AllocError>
    ensures design { IfOk result IsDesign }
    ensures functions { IfOk result (λ d. d.functions ≡ functions.links [] functions.place 0 16) }
{
    let mut functions = Items::new(alloc);
    add_links(alloc, 0, LINKS, &mut functions)?;
    Ok(Design {
        nets: Items::new(alloc),
        vars: Items::new(alloc),
        procs: Items::new(alloc),
        assigns: Items::new(alloc),
        functions,
        scopes: Items::new(alloc),
        unit: Unit {
            ten: 0,
            base: Base::Ns,
        },
    })
}
