//! Whether a worker has the lead, and what it does when it has nothing to try.
use crate::boards::{Board, Lead};
use crate::kinds::{Kind, kind_of};
use core_events::Event;

/// How often a worker that has nothing to try rests, while others have something, before it syncs what they added.
const RESTS_TO_SYNC: u64 = 68;

/// How often it rests behind that before it looks for what they have yet to try.
const RESTS_TO_LOOK: u64 = 4;

/// How often it rests behind that before it looks at all parts.
const RESTS_TO_TAKE: u64 = 32;

/// How often it rests before it does so, where slices are short, behind the last event that another one tried.
const RESTS_BEHIND: u64 = 3;

/// How much a look takes, and what it lists.
#[derive(Clone, Copy, Debug, PartialEq, Eq)]
pub enum Scope {
    /// All but the cells that no event touched since a look had them. What lies at actors, comes there, or is next of the ring.
    Narrow,
    /// All parts, and all but replies of PACTs; one Sync, where nothing else is found.
    Full,
    /// All parts, and all that is allowed there. Replies that wait may be many, and are listed here alone.
    Wide,
}

/// What a worker does after a round.
#[derive(Clone, Copy, Debug, PartialEq, Eq)]
pub enum Next {
    /// Another round.
    Again,
    /// It lets others work for a while.
    Rest,
    /// No more rounds.
    End,
}

/// What a worker does that has nothing to try.
#[derive(Clone, Copy, Debug, PartialEq, Eq)]
pub enum Step {
    /// It syncs a log whose records wait for that.
    Sync,
    /// It looks, so far.
    Look(Scope),
}

/// How often a worker rests before this step, while others have something to try.
fn patience(step: Step) -> u64 {
    match step {
        Step::Sync => RESTS_TO_SYNC,
        Step::Look(Scope::Narrow) => RESTS_TO_LOOK,
        Step::Look(Scope::Full) | Step::Look(Scope::Wide) => RESTS_TO_TAKE,
    }
}

/// Of a worker, whether it has the lead, and what it does next when it has nothing to try.
pub struct Leader<'a> {
    /// The lead, where it looked, and has not tried all yet that it found.
    lead: Option<Lead<'a>>,
    /// Whether others know that it has nothing to try.
    idle: bool,
    /// What it does next when it has nothing to try.
    step: Step,
    /// How often it has rested since it looked, or did an event.
    rests: u64,
    /// How often it has rested since it did an event.
    naps: u64,
    /// How many events had been tried when it last rested.
    pace: u64,
}

// Written out, since a derived drop is proved again in each crate that lets a worker go.
impl<'a> Drop for Leader<'a> {
    fn drop(self) {
        let Leader {
            lead: _lead,
            idle: _,
            step: _,
            rests: _,
            naps: _,
            pace: _,
        } = self;
    }
}

impl<'a> Leader<'a> {
    /// Without the lead, and with a narrow look to begin with.
    pub fn new() -> Self {
        Leader {
            lead: None,
            idle: true,
            step: Step::Look(Scope::Narrow),
            rests: 0,
            naps: 0,
            pace: 0,
        }
    }

    /// How often it has rested since it did an event. It counts one rest more.
    pub fn naps(&mut self) -> u64 {
        let naps = self.naps;
        self.naps = naps.saturating_add(1);
        naps
    }

    /// It has something to try.
    pub fn is_busy(&mut self, board: &Board) {
        if self.idle {
            self.idle = false;
            board.begin_work();
        }
    }

    /// It has nothing to try.
    pub fn is_idle(&mut self, board: &Board) {
        if !self.idle {
            self.idle = true;
            board.end_work();
        }
    }

    /// Another worker may look: before what may take long, and where it has tried all that it found.
    pub fn give_up(&mut self) {
        let _given_back = self.lead.take();
    }

    /// What it does next, which has nothing to try: `None` where it rests. It goes on where no other worker has anything to try either;
    /// else it waits for a while before it takes parts from those that have, and it looks only where it can have the lead.
    pub fn step(&mut self, board: &'a Board) -> Option<Step> {
        self.follow(board);
        if self.rests < patience(self.step) && board.has_work() {
            self.rests = self.rests.saturating_add(1);
            return None;
        }
        if self.step == Step::Sync {
            self.rests = 0;
            self.step = Step::Look(Scope::Narrow);
            return Some(Step::Sync);
        }
        self.lead = board.lead();
        match &self.lead {
            Some(_) => Some(self.step),
            None => None,
        }
    }

    /// While slices are short, it rests as long as others go on, and a few times more.
    fn follow(&mut self, board: &Board) {
        let pace = board.pace();
        if pace != self.pace && !board.is_spread() {
            self.rests = self
                .rests
                .min(patience(self.step).saturating_sub(RESTS_BEHIND));
        }
        self.pace = pace;
    }

    /// An event was done. What waits for a Sync comes next, and then a narrow look; but what an abort makes allowed lies all over.
    pub fn did(&mut self, e: Event) {
        self.rests = 0;
        self.naps = 0;
        self.step = if kind_of(e) == Kind::Abort {
            Step::Look(Scope::Full)
        } else {
            Step::Sync
        };
    }

    /// A look found something. If none of that can be done, a narrow look would find the same, so the next one takes all parts.
    pub fn found(&mut self) -> Next {
        if self.step == Step::Look(Scope::Narrow) {
            self.step = Step::Look(Scope::Full);
        }
        self.rests = 0;
        Next::Again
    }

    /// A look found nothing, with all parts or not. The next step takes more at once; but only who had all parts looks wide. Where a
    /// wide look had all parts, all is quiet, and the worker ends.
    pub fn nothing(&mut self, all: bool) -> Next {
        match self.step {
            Step::Look(Scope::Wide) if all => Next::End,
            Step::Look(_) if all => self.goes_on(Step::Look(Scope::Wide)),
            Step::Look(Scope::Narrow) => self.goes_on(Step::Look(Scope::Full)),
            Step::Look(Scope::Full) | Step::Look(Scope::Wide) | Step::Sync => self.missed(),
        }
    }

    fn goes_on(&mut self, step: Step) -> Next {
        self.step = step;
        self.rests = 0;
        Next::Again
    }

    /// Others have parts without which there is nothing to find. It begins again, in a while.
    pub fn missed(&mut self) -> Next {
        self.step = Step::Sync;
        self.rests = 0;
        Next::Rest
    }
}
