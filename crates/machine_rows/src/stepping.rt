//! What a core answers to events, and what goes along beside it.

use crate::likeness::{are_same, tell_the_same};
use crate::texts::tables_of;
use core_events::Event;
use footprint_rows::{FootprintCore, is_listed};
use rand_core::utils::NextWord;
use rand_pcg::Pcg32;
use ready_list::ReadyList;
use snap_base::Memory;
use snap_core::{Core, StepNo};
use std::alloc::Global;
use std::test::Fail;
use trace_text::parse_trace;

/// A row goes on for at most so many events.
const MOST_STEPS: usize = 200;

/// A core. Beside it the allowed events are kept from event to event, and each event is taken on a hand with just its footprint.
pub struct Machine {
    core: Core,
    ready: ReadyList,
    news: Vec<Event>,
    few: FootprintCore,
}

// By hand, so that whoever lets a machine go calls this, and does not repeat it.
impl Drop for Machine {
    fn drop(self) {
        let Machine {
            core: _core,
            ready: _ready,
            news: _news,
            few: _few,
        } = self;
    }
}

/// The events of a script, apart by `, `.
fn events_of(alloc: Global, script: &str) -> Result<Vec<Event>, Fail> {
    let trace = script.replace(alloc, ", ", "\n")?;
    if trace.len() > 100_000 {
        return Err(Fail::new("a script is too long"));
    }
    Ok(parse_trace(alloc, &trace)?)
}

/// Takes the event, where it is allowed: the rule that refuses it, or 0 where it is taken. `None` where it was asked for before
/// and told otherwise.
fn answer_of(alloc: Global, core: &mut Core, event: Event) -> Result<Option<u8>, Memory> {
    let asked = core.refusal(event);
    let rule = match core.step(alloc, event) {
        Ok(()) => 0,
        Err(StepNo::NotNow { rule }) => rule,
        Err(StepNo::Memory) => return Err(Memory),
    };
    Ok(if asked == rule { Some(rule) } else { None })
}

impl Machine {
    /// The machine of the text that the words `asked` of a row tell, before any event. It fails where they tell no work
    /// text, and where memory ends.
    pub fn open(alloc: Global, asked: &str) -> Result<Machine, Fail> {
        let few = FootprintCore::open(alloc, tables_of(alloc, asked)?)?;
        let core = Core::open(alloc, tables_of(alloc, asked)?)?;
        Ok(Machine::beginning(alloc, core, few)?)
    }

    fn beginning(alloc: Global, core: Core, few: FootprintCore) -> Result<Machine, Memory> {
        let ready = ReadyList::new(alloc);
        let mut machine = Machine {
            core,
            ready,
            news: Vec::new(alloc),
            few,
        };
        machine.ready = machine.core.enabled(alloc)?;
        Ok(machine)
    }

    /// The core, lent, to look at what it tells.
    pub fn core(&self) -> &Core {
        &self.core
    }

    /// Takes the event, where it is allowed: the rule that refuses it, or 0 where it is taken. `None` where not all answer alike:
    /// the core, the one that has just the footprint, and the list of those allowed, in which the event stood exactly where it
    /// is taken; or where they do not tell the same behind it.
    fn answer(&mut self, alloc: Global, event: Event) -> Result<Option<u8>, Memory> {
        let listed = is_listed(&self.ready, event);
        let few = self.few.answer(alloc, event, &self.ready)?;
        self.core.foresee(event, &mut self.news)?;
        let rule = answer_of(alloc, &mut self.core, event)?;
        if few != rule || listed != (rule == Some(0)) {
            return Ok(None);
        }
        if listed {
            self.core
                .renew(alloc, event, &mut self.ready, &mut self.news)?;
        }
        Ok(if self.is_alike(alloc)? { rule } else { None })
    }

    /// Whether the list that is kept has all that is allowed, and no more, and the parts beside the core tell the same as the core.
    fn is_alike(&self, alloc: Global) -> Result<bool, Memory> {
        let allowed = self.core.enabled(alloc)?;
        Ok(are_same(&self.ready, &allowed) && tell_the_same(&self.core, &self.few))
    }

    /// The event that a word picks of those allowed.
    fn picked(&self, word: usize) -> Option<Event> {
        let count = self.ready.count();
        if count == 0 {
            return None;
        }
        self.ready.nth(word % count)
    }

    /// Tells what the event is answered, where it is not this: 0 where it is taken, else its rule.
    fn tell_answer(
        &mut self,
        alloc: Global,
        event: Event,
        wanted: u8,
        told: &mut String,
    ) -> Result<(), Fail> {
        let rule = self.answer(alloc, event)?;
        if rule != Some(wanted) {
            told.push_str(&format!(in alloc; "{event:?} has {rule:?}; ")?)?;
        }
        Ok(())
    }

    /// Takes the events of a script, in their order, and puts into `told` each of which the answer is not the one `wanted`: 0
    /// where it is taken, else the rule that refuses it.
    pub fn tell_answers(
        &mut self,
        alloc: Global,
        script: &str,
        wanted: u8,
        told: &mut String,
    ) -> Result<(), Fail> {
        let events = events_of(alloc, script)?;
        for event in events.as_slice() {
            self.tell_answer(alloc, *event, wanted, told)?;
        }
        Ok(())
    }

    /// Tells what a word picks, where it is not the event; then takes this.
    fn tell_pick(
        &mut self,
        alloc: Global,
        event: Event,
        word: usize,
        told: &mut String,
    ) -> Result<(), Fail> {
        let pick = self.picked(word);
        if pick != Some(event) {
            told.push_str(&format!(in alloc; "picked is {pick:?}; ")?)?;
        }
        self.tell_answer(alloc, event, 0, told)
    }

    /// Takes the events of a script, in their order, and puts into `told` each that the next word of the seed does not pick of the
    /// allowed ones, or that is not taken. Seed 0 picks the first event at each step.
    pub fn tell_picks(
        &mut self,
        alloc: Global,
        script: &str,
        seed: u64,
        told: &mut String,
    ) -> Result<(), Fail> {
        let mut generator = Pcg32::new(seed, 0);
        let events = events_of(alloc, script)?;
        for event in events.as_slice() {
            let word = generator.next_word() as usize;
            self.tell_pick(alloc, *event, if seed == 0 { 0 } else { word }, told)?;
        }
        Ok(())
    }

    /// Takes the first event that is allowed, until none is, 200 at most. It puts into `told` each that is not taken, and that
    /// there was no end.
    pub fn go_on(&mut self, alloc: Global, told: &mut String) -> Result<(), Fail> {
        for _step in 0..MOST_STEPS {
            let Some(event) = self.picked(0) else {
                return Ok(());
            };
            self.tell_answer(alloc, event, 0, told)?;
        }
        told.push_str("no end; ")?;
        Ok(())
    }

    /// Puts into `told` the first event that is allowed, if there is one.
    pub fn tell_allowed(&self, alloc: Global, told: &mut String) -> Result<(), Fail> {
        if let Some(event) = self.picked(0) {
            told.push_str(&format!(in alloc; "{event:?} is allowed; ")?)?;
        }
        Ok(())
    }
}
