// What a procedure has still to do.
ghost use Rattle.std.specs.Prelude.{◌≡◌, ◌∷◌, ◌++◌, [], IfOk, OnOk, MatchOption, List, drop};
ghost use Rattle.nt_semantics.specs.Statements.{after_break, after_continue, is_loop};
ghost use Rattle.nt_semantics.specs.declared.work.Work.{Work as WorkValue};
ghost use Rattle.nt_work.specs.Plans.{resumed};

use crate::Plan;
use nt_semantics::Work;
use sqlite_items::Items;
use std::alloc::{AllocError, Global};
use std::marker::Model;

/// What a procedure has still to do, in order. It is a stack whose top comes first.
#[derive(Drop)]
pub struct Todo {
    items: Items<Work>,
}

impl Model for Todo {
    ghost use Rattle.std.specs.Prelude.{List, reverse};
    ghost use Rattle.std.specs.Coded.{codes};
    ghost use Rattle.nt_design.specs.contracts.act.Act as act;
    ghost use Rattle.nt_design.specs.contracts.tree.Tree as tree;
    ghost use Rattle.nt_semantics.specs.declared.work.Work.{Work};

    ghost Value = { List Work };

    ghost coded = { Prim.hlevel (codes, act.the_row.coded, tree.the_row.coded) };

    ghost view = { λ t. reverse t.items };
}

fn is_loop(work: &Work) -> bool
    ensures { result ≡ is_loop work.now }
{
    match work {
        Work::Do { .. } | Work::Awaiting { .. } => false,
        Work::Testing { .. } | Work::Stepping { .. } => true,
        Work::Repeating { .. } | Work::Counting { .. } | Work::Each { .. } => true,
    }
}

impl Todo {
    /// Nothing to do. It takes no memory.
    pub fn new(alloc: Global) -> Todo
        ensures { result ≡ [] }
    {
        Todo {
            items: Items::new(alloc),
        }
    }

    /// What comes first.
    pub fn first(&self) -> Option<&Work>
        ensures { MatchOption result (self.now ≡ []) (λ first. (rest : List WorkValue) × (self.now ≡ first.now ∷ rest)) }
    {
        self.items.as_slice().last()
    }

    /// Puts these before the others.
    ///
    /// # Errors
    ///
    /// Where memory is refused. Some of them may have been put then.
    pub fn put_before(&mut self, items: Items<Work>) -> Result<(), AllocError>
        ensures { OnOk result (self.new ≡ items ++ self.old) }
    {
        let mut left = items;
        while let Some(last) = left.pop() {
            self.items.push(last)?;
        }
        Ok(())
    }

    // Takes away what comes first.
    fn drop_first(&mut self)
        ensures { self.new ≡ drop 1 self.old }
    {
        self.items.pop();
    }

    // Gives up what is left of the body of the innermost loop.
    fn end_body(&mut self)
        ensures { self.new ≡ after_continue self.old }
    {
        while let Some(work) = self.items.as_slice().last() {
            if is_loop(work) {
                return;
            }
            self.drop_first();
        }
    }

    /// Goes on by a plan.
    ///
    /// # Errors
    ///
    /// Where memory is refused. Nothing is known then of what is to do.
    pub fn resume(&mut self, plan: Plan) -> Result<(), AllocError>
        ensures { OnOk result ((first : WorkValue) (rest : List WorkValue) → self.old ≡ first ∷ rest → self.new ≡ resumed plan first rest) }
    {
        match plan {
            Plan::Onto { items } => self.put_before(items),
            Plan::First { items } => {
                self.drop_first();
                self.put_before(items)
            }
            Plan::Break => {
                self.drop_first();
                self.end_body();
                self.drop_first();
                Ok(())
            }
            Plan::Continue => {
                self.drop_first();
                self.end_body();
                Ok(())
            }
        }
    }
}
