//! The core: a text and all parts of the machine, opened, and stepped by events.
ghost use Rattle.std.specs.Prelude.{◌≡◌, [], List, IfOk, IfErr, OnOk, OnErr};
ghost use Rattle.snap_hand.specs.core_rows.OnRuns.{HasRun};
ghost use Rattle.protocol.specs.Events as machine;
ghost use Rattle.protocol.specs.Runs.{IsRun, reached};
ghost use Rattle.core_events.specs.Meant.{event_meant};
ghost use Rattle.snap_core.specs.Cores.{IsAt, HasTaken, IsRefusalBy, IsNoBy};
ghost use Rattle.snap_hand.specs.Tables.{AreTables, fixed_of};

use aml_slice::Control;
use core_events::Event;
use machine_laws::texts_have_the_facts;
use snap_base::Memory;
use snap_hand::{Hand, StepNo, Tables, apply, refusal, runs_go_on};
use std::alloc::Global;
use std::marker::Model;

/// The machine of a work text: its tables, and all its parts. Contracts see both; `IsAt` tells which runs of the text lead
/// to what the core shows, and some run always does.
#[derive(Drop)]
pub struct Core {
    pub(crate) tables: Tables,
    pub(crate) hand: Hand,
}

impl Model for Core {
    ghost use Rattle.std.specs.Coded.{codes};
    ghost use denote.Builtin.{u8, u16};
    ghost use Rattle.aml_slice.specs.aml_tree.contracts.trees.Statement as statement;
    ghost use Rattle.snap_core.specs.Cores.{CoreState, IsCore};

    ghost Value = { CoreState };

    ghost coded = { Prim.hlevel (codes, (statement.the_row u8 u16).coded) };

    ghost view = { λ c. record { tables = c.tables; hand = c.hand } };

    ghost invariant = { λ c. IsCore c.tables c.hand };
}

impl Core {
    /// The core before any event, for an accepted text and what its logs recovered to. An `Err` is want of memory, and then the
    /// tables are let go.
    pub fn open(alloc: Global, tables: Tables) -> Result<Core, Memory>
        requires { AreTables tables }
        ensures tables { IfOk result (λ core. core.tables ≡ tables) }
        ensures opening { IfOk result (λ core. IsAt core []) }
    {
        runs_lead(&tables);
        let hand = Hand::open(alloc, &tables)?;
        Ok(Core { tables, hand })
    }

    /// Takes the event, where it is allowed. Else, and for want of memory, the core stays as it was; `Memory` comes only
    /// of the events that add something.
    pub fn step(&mut self, alloc: Global, e: Event) -> Result<(), StepNo>
        ensures ok { OnOk result (HasTaken (event_meant e) self.old self.new) }
        ensures no { IfErr result (IsNoBy (event_meant e) self.old) }
        ensures unchanged { OnErr result (self.new ≡ self.old) }
        ensures tables { self.new.tables ≡ self.old.tables }
    {
        runs_lead(&self.tables);
        runs_go_on::<Control>();
        apply(alloc, &self.tables, e, &mut self.hand)
    }

    /// Which of the event's conditions is the first false one, from 1 on as the event table counts them, or 0 where the event is
    /// allowed.
    pub fn refusal(&self, e: Event) -> u8
        ensures { IsRefusalBy (event_meant e) self.now result }
    {
        runs_lead(&self.tables);
        refusal(&self.tables, &self.hand, e)
    }
}

/// A state to which a run of the tables' text leads is one of which the rows speak.
pub(crate) fn runs_lead(tables: &Tables)
    requires { AreTables tables.now }
    ensures { (es : List machine.Event) → IsRun (fixed_of tables.now) es → HasRun (fixed_of tables.now) (reached (fixed_of tables.now) es) }
{
    texts_have_the_facts(&tables.work.program);
}
