//! What the workers of a crew tell each other, besides the parts. All of it is hints: what a worker does it asks for first, with the
//! parts at hand. So a hint for which there is no memory is left out, and a look finds the event again.
ghost use Rattle.std.specs.Prelude.{◌≤◌};

use crate::finds::Finds;
use crate::shelves::Shelf;
use core_events::{Event, Footprint, first_cell, part_of_log};
use std::alloc::Global;
use std::sync::Wait;
use std::sync::atomic::{AtomicU64, Ordering};
use std::thread;
use std::time::Duration;

/// How often a worker that has nothing to do yields before it sleeps.
const YIELDS: u64 = 64;

/// How much longer each of its sleeps is than the one before, and how many times that the longest is.
const NAP_MICROS: u64 = 20;

const LONGEST_NAP: u64 = 50;

/// How often a worker that has slept yields, to see whether another one goes on: some ten microseconds, which is much longer than an
/// event takes, and shorter than a slice that is worth another worker.
const WATCHES: u64 = 16;

/// While a slice takes, others try so many events, or the slice is short: some of a microsecond each. To send a slice to another worker and
/// back costs as much as some of them.
const SHORT: u64 = 16;

/// Behind a slice that took long so many Runs are for whoever comes first, and a short one counts for some of them.
const SPREAD: u64 = 256;

const SHORT_COUNTS: u64 = 8;

/// Room for so many Runs.
const ROOM_OF_RUNS: usize = 1_024;

/// Room for so many events that lack a part which is no cell, and for so many that lack a cell.
const ROOM_OF_PART: usize = 256;

const ROOM_OF_CELL: usize = 16;

/// How often what lacked a part is taken over in a row: there may be more than there is room for at once.
const TAKES: usize = 8;

/// A board that all workers of a crew read and write.
pub struct Board {
    /// How many logs there are.
    logs: u8,
    /// Whether there is one worker alone: then it tells nobody.
    alone: bool,
    /// Runs for whoever comes first.
    runs: Shelf,
    /// What needs the ring, the book, the post or the desk, for the worker that is at the hub.
    hub_events: Shelf,
    /// 1 while a worker is at the hub.
    hub: AtomicU64,
    /// By the number of a part, what lacked it while a worker had it.
    lacking: Vec<Shelf>,
    /// How many events were left there, or are about to be, and how many of these are there no more, or could not be left.
    left: AtomicU64,
    gone: AtomicU64,
    /// By the number of a log, how many of its records wait for a Sync.
    waiting: Vec<AtomicU64>,
    /// By the number of a part, 1 where an event touched it since a look had it.
    touched: Vec<AtomicU64>,
    /// How many events were tried, but for those that were tried at the same moment.
    pace: AtomicU64,
    /// For how many slices more Runs are for whoever comes first: 0 while slices are short.
    spread: AtomicU64,
    /// 1 while who is at the hub, or was a moment ago, is in a slice that it kept.
    inside: AtomicU64,
    /// 1 while a worker has the lead.
    looking: AtomicU64,
    /// How many have something to try.
    working: AtomicU64,
    /// How many sleep.
    resting: AtomicU64,
    /// 1 where a sleeper was woken that has not come yet.
    woken: AtomicU64,
    /// 1 once a worker has ended.
    ended: AtomicU64,
    ghost some: { 1 ≤ logs },
}

// Written out, since a derived drop is proved again in each crate that lets a board go.
impl Drop for Board {
    fn drop(self) {
        let Board {
            logs: _,
            alone: _,
            runs: _runs,
            hub_events: _hub_events,
            hub: _hub,
            lacking: _lacking,
            left: _left,
            gone: _gone,
            waiting: _waiting,
            touched: _touched,
            pace: _pace,
            spread: _spread,
            inside: _inside,
            looking: _looking,
            working: _working,
            resting: _resting,
            woken: _woken,
            ended: _ended,
        } = self;
    }
}

/// The lead: who has it looks, and tries what it found, and no other worker looks meanwhile. It is given back when it is dropped.
pub(crate) struct Lead<'a> {
    board: &'a Board,
}

impl<'a> Drop for Lead<'a> {
    fn drop(self) {
        let Lead { board } = self;
        board.looking.store(0, Ordering::SeqCst);
    }
}

/// So many words of this value, as far as there is memory for them.
fn words(alloc: Global, count: usize, value: u64) -> Vec<AtomicU64> {
    let mut words = Vec::new(alloc);
    for _word in 0..count {
        if words.push(AtomicU64::new(value)).is_err() {
            break;
        }
    }
    words
}

/// A list for each of so many parts, of which those from a number on are cells; as far as there is memory for them.
fn shelves(alloc: Global, parts: usize, cells: usize) -> Vec<Shelf> {
    let mut shelves = Vec::new(alloc);
    for part in 0..parts {
        let room = if part < cells {
            ROOM_OF_PART
        } else {
            ROOM_OF_CELL
        };
        if shelves.push(Shelf::new(alloc, room)).is_err() {
            break;
        }
    }
    shelves
}

impl Board {
    /// A board for so many parts, none of which a look had yet, and of which so many are logs; and for so many workers. Where there
    /// is no memory for a part's word, it is taken for touched always.
    pub fn new(alloc: Global, parts: usize, logs: u8, workers: usize) -> Self
        requires { 1 ≤ logs }
    {
        Board {
            logs,
            alone: workers == 1,
            runs: Shelf::new(alloc, ROOM_OF_RUNS),
            hub_events: Shelf::new(alloc, ROOM_OF_RUNS),
            hub: AtomicU64::new(0),
            lacking: shelves(alloc, parts, first_cell(logs)),
            left: AtomicU64::new(0),
            gone: AtomicU64::new(0),
            waiting: words(alloc, logs as usize, 0),
            touched: words(alloc, parts, 1),
            pace: AtomicU64::new(0),
            spread: AtomicU64::new(0),
            inside: AtomicU64::new(0),
            looking: AtomicU64::new(0),
            working: AtomicU64::new(0),
            resting: AtomicU64::new(0),
            woken: AtomicU64::new(0),
            ended: AtomicU64::new(0),
        }
    }

    /// Whether there is one worker alone.
    pub fn is_alone(&self) -> bool {
        self.alone
    }

    /// How many events were tried so far, but for those that were tried at the same moment.
    pub fn pace(&self) -> u64 {
        self.pace.load(Ordering::SeqCst)
    }

    /// One event more was tried.
    pub fn go_on(&self) {
        let pace = self.pace.load(Ordering::Relaxed);
        self.pace.store(pace.wrapping_add(1), Ordering::Relaxed);
    }

    /// Whether Runs are for whoever comes first, since slices take long. Else who is at the hub keeps what it finds: to send a short slice
    /// to another worker takes longer than the slice.
    pub fn is_spread(&self) -> bool {
        self.spread.load(Ordering::SeqCst) != 0
    }

    /// Slices take long.
    fn begin_spread(&self) {
        self.spread.store(SPREAD, Ordering::SeqCst);
    }

    /// A slice that was kept begins.
    pub fn enter_slice(&self) {
        self.inside.store(1, Ordering::Relaxed);
    }

    /// It is over.
    pub fn leave_slice(&self) {
        self.inside.store(0, Ordering::Relaxed);
    }

    /// A slice is over that was begun when so many events had been tried, and when a worker was at the hub or not. Where others tried many
    /// meanwhile it took long, and where one was at the hub all the while and they tried few it was short.
    pub fn weigh(&self, begun: u64, busy: bool) {
        let spread = self.spread.load(Ordering::SeqCst);
        if spread == 0 {
            return;
        }
        if self.pace().wrapping_sub(begun) >= SHORT {
            self.begin_spread();
            return;
        }
        let short = busy && self.is_busy();
        let counts = if short { SHORT_COUNTS } else { 1 };
        self.spread
            .store(spread.saturating_sub(counts), Ordering::SeqCst);
    }

    /// Whether a worker is at the hub.
    pub fn is_busy(&self) -> bool {
        self.hub.load(Ordering::SeqCst) != 0
    }

    /// The Runs that a worker found are for whoever comes first. Where there is no room for one, it stays with the worker.
    pub fn post_runs(&self, finds: &mut Finds) {
        if self.alone {
            return;
        }
        for _run in 0..ROOM_OF_RUNS {
            let Some(e) = finds.next_run() else {
                break;
            };
            if !self.runs.put(e) {
                let _kept = finds.put(e);
                break;
            }
        }
        if self.runs.count() > 1 {
            self.wake();
        }
    }

    /// The first Run, which stands here no more; `None` where there is none, or another worker had the list.
    pub fn take_run(&self) -> Option<Event> {
        self.runs.take_first()
    }

    /// Whether the worker is at the hub now, which was not there: not where another one is.
    pub fn enter_hub(&self) -> bool {
        self.alone || self.hub.swap(1, Ordering::SeqCst) == 0
    }

    /// The worker that was at the hub is not there any more. Who is next at the hub looks for what was left there.
    pub fn leave_hub(&self) {
        self.hub.store(0, Ordering::SeqCst);
    }

    /// Whether something was left for who is at the hub.
    pub fn has_hub_event(&self) -> bool {
        self.hub_events.count() != 0
    }

    /// An event is left to who is at the hub. False where it could not be left.
    pub fn leave_at_hub(&self, e: Event) -> bool {
        self.hub_events.put(e)
    }

    /// What was left for who is at the hub is taken over.
    pub fn take_over_hub(&self, finds: &mut Finds) {
        for _take in 0..TAKES {
            if !self.has_hub_event() {
                return;
            }
            self.hub_events.take_all(&mut finds.heard);
            finds.keep_heard();
        }
    }

    /// So many records of this log wait for a Sync.
    pub fn set_waiting(&self, l: u8, count: u64) {
        if let Some(word) = self.waiting.get(l as usize) {
            if word.load(Ordering::SeqCst) != count {
                word.store(count, Ordering::SeqCst);
            }
        }
    }

    /// The Sync of the log in which most records wait for one, of those logs for which nobody waits.
    pub fn due_sync(&self) -> Option<Event> {
        let mut most = 0;
        let mut due = None;
        for l in 0..self.logs {
            let waiting = self.waiting_in(l);
            if waiting > most && self.lack_of(part_of_log(l)) == 0 {
                most = waiting;
                due = Some(Event::Sync(l));
            }
        }
        due
    }

    /// How many records of this log wait for a Sync.
    fn waiting_in(&self, l: u8) -> u64 {
        match self.waiting.get(l as usize) {
            Some(word) => word.load(Ordering::SeqCst),
            None => 0,
        }
    }

    /// How many events lack this part.
    fn lack_of(&self, part: usize) -> u64 {
        match self.lacking.get(part) {
            Some(shelf) => shelf.count(),
            None => 0,
        }
    }

    /// An event that lacked this part is left to the worker that has the part. False where it could not be left: then it stays with
    /// who found it. Who leaves an event tries to get the part once more behind that, and who gives a part back looks for what lacked
    /// it behind that. So one of the two sees the other.
    pub fn leave(&self, part: usize, e: Event) -> bool {
        self.left.fetch_add(1, Ordering::SeqCst);
        let kept = match self.lacking.get(part) {
            Some(shelf) => shelf.put(e),
            None => false,
        };
        if !kept {
            self.gone.fetch_add(1, Ordering::SeqCst);
        }
        kept
    }

    /// Whether some event lacks a part, of those that were left before. Mostly none does, so no list need be looked at. Those that are gone
    /// are counted first: one that is left and taken over meanwhile must not hide another one.
    pub fn has_left(&self) -> bool {
        let gone = self.gone.load(Ordering::SeqCst);
        self.left.load(Ordering::SeqCst) != gone
    }

    /// What lacked this part is taken over.
    pub fn take_over(&self, part: usize, finds: &mut Finds) {
        if self.lack_of(part) != 0 {
            self.take_all_over(part, finds);
        }
    }

    /// What lacks this part is taken over, which something does.
    fn take_all_over(&self, part: usize, finds: &mut Finds) {
        for _take in 0..TAKES {
            if self.lack_of(part) == 0 {
                return;
            }
            if let Some(shelf) = self.lacking.get(part) {
                shelf.take_all(&mut finds.heard);
            }
            self.gone
                .fetch_add(finds.heard.len() as u64, Ordering::SeqCst);
            finds.keep_heard();
        }
    }

    /// What lacked this part is taken over, where that is asked for.
    pub fn take_over_if(&self, asked: bool, part: usize, finds: &mut Finds) {
        if asked {
            self.take_over(part, finds);
        }
    }

    /// What lacked one of those parts for which there is a bit, from the lowest on, is taken over.
    pub fn take_over_those(&self, parts: &Footprint, those: u32, finds: &mut Finds) {
        if !self.has_left() {
            return;
        }
        let mut left = those;
        for part in parts.as_slice() {
            if left % 2 == 1 {
                self.take_over(*part, finds);
            }
            left /= 2;
        }
    }

    /// What lacked any part is taken over.
    pub fn take_over_each(&self, finds: &mut Finds) {
        if !self.has_left() {
            return;
        }
        for part in 0..self.lacking.len() {
            self.take_over(part, finds);
        }
    }

    /// Whether an event touched this part since a look had it.
    pub fn is_touched(&self, part: usize) -> bool {
        match self.touched.get(part) {
            Some(word) => word.load(Ordering::SeqCst) != 0,
            None => true,
        }
    }

    fn set_touched(&self, part: usize, value: u64) {
        if let Some(word) = self.touched.get(part) {
            if word.load(Ordering::SeqCst) != value {
                word.store(value, Ordering::SeqCst);
            }
        }
    }

    /// A look has this part. A worker alone looks at all parts each time.
    pub fn is_looked_at(&self, part: usize) {
        if !self.alone {
            self.set_touched(part, 0);
        }
    }

    /// An event touched these parts, or was found for them and not done.
    pub fn touch(&self, parts: &Footprint) {
        if self.alone {
            return;
        }
        for part in parts.as_slice() {
            self.set_touched(*part, 1);
        }
    }

    /// The lead, unless a worker has it.
    pub(crate) fn lead(&self) -> Option<Lead<'_>> {
        if self.looking.swap(1, Ordering::SeqCst) == 0 {
            Some(Lead { board: self })
        } else {
            None
        }
    }

    /// A worker has something to try.
    pub fn begin_work(&self) {
        self.working.fetch_add(1, Ordering::SeqCst);
    }

    /// It has nothing to try.
    pub fn end_work(&self) {
        self.working.fetch_sub(1, Ordering::SeqCst);
    }

    /// Whether a worker has something to try.
    pub fn has_work(&self) -> bool {
        self.working.load(Ordering::SeqCst) != 0
    }

    /// Whether a worker has ended.
    pub fn has_ended(&self) -> bool {
        self.ended.load(Ordering::SeqCst) != 0
    }

    /// A worker has ended; who sleeps wakes.
    pub fn end(&self) {
        self.ended.store(1, Ordering::SeqCst);
        self.woken.store(1, Ordering::SeqCst);
        self.woken.wake_all();
    }

    /// One that sleeps wakes, unless one was woken that has not come yet.
    fn wake(&self) {
        if self.resting.load(Ordering::SeqCst) > 0 && self.woken.swap(1, Ordering::SeqCst) == 0 {
            self.woken.wake_one();
        }
    }

    /// Lets others work: first for a moment, then for longer and longer, up to a limit, unless there is something to do.
    pub fn rest<R: Wait>(&self, rt: &R, rests: u64) {
        if rests < YIELDS {
            thread::yield_now();
            self.watch();
            return;
        }
        let times = (rests - YIELDS).min(LONGEST_NAP - 1) + 1;
        self.resting.fetch_add(1, Ordering::SeqCst);
        if self.runs.count() == 0 && !self.has_ended() {
            self.woken
                .park_timeout(rt, 0, Duration::from_micros(NAP_MICROS * times));
        }
        self.resting.fetch_sub(1, Ordering::SeqCst);
        self.woken.store(0, Ordering::SeqCst);
        self.watch();
    }

    /// Sees whether a slice that was kept takes long: then Runs are for whoever comes first.
    fn watch(&self) {
        let pace = self.pace();
        if self.is_spread() || !self.is_inside() {
            return;
        }
        for _yield in 0..WATCHES {
            thread::yield_now();
        }
        if self.pace() == pace && self.is_inside() {
            self.begin_spread();
        }
    }

    /// Whether a slice that was kept goes on.
    fn is_inside(&self) -> bool {
        self.inside.load(Ordering::SeqCst) != 0
    }
}
