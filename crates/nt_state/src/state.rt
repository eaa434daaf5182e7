// The state, in columns.
use nt_design::Put;
use nt_semantics::Standing;
use nt_value::{Text, Value};
use nt_work::Todo;
use sqlite_items::Items;
use std::alloc::Global;
use std::marker::Model;

/// The state of a run of a design (IEEE 1800-2017, 4.3, 4.4): the moment, the values of variables, nets and slots, what each
/// procedure has to do and where it is, and what is in each region. Each column has an item for each thing of its kind, by its
/// number in the design.
#[derive(Drop)]
pub struct State {
    pub(crate) alloc: Global,
    pub(crate) moment: u64,
    pub(crate) vars: Items<Value>,
    pub(crate) nets: Items<Value>,
    pub(crate) slots: Items<Value>,
    pub(crate) standings: Items<Standing>,
    pub(crate) work: Vec<Todo>,
    pub(crate) locals: Vec<Items<Value>>,
    pub(crate) fresh: Items<bool>,
    pub(crate) evaluations: Items<u64>,
    pub(crate) resolutions: Items<u64>,
    pub(crate) nonblocking: Vec<Put>,
    // the updates that were moved to Active, the first of them last
    pub(crate) moved: Vec<Put>,
    pub(crate) shown: Items<(u32, Text)>,
    pub(crate) finished: bool,
}

impl Model for State {
    ghost use Rattle.std.specs.Prelude.{reverse};
    ghost use Rattle.std.specs.Coded.{codes};
    ghost use Rattle.nt_design.specs.contracts.act.Act as act;
    ghost use Rattle.nt_design.specs.contracts.tree.Tree as tree;
    ghost use Rattle.nt_semantics.specs.State.{MachineState};

    ghost Value = { MachineState };

    ghost coded = { Prim.hlevel (codes, act.the_row.coded, tree.the_row.coded) };

    ghost view = { λ s. record { moment = s.moment; vars = s.vars; nets = s.nets; slots = s.slots; standings = s.standings; work = s.work.items; locals = s.locals.items; fresh = s.fresh; evaluations = s.evaluations; resolutions = s.resolutions; nonblocking = s.nonblocking.items; moved = reverse s.moved.items; shown = s.shown; finished = s.finished } };
}
