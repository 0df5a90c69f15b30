//! Runs by crews, and what is not so of one.

ghost use Rattle.std.specs.Prelude.{◌≡◌, ◌+◌, ◌≤◌, ◌^◌, false, length, vec_len, IfOk};
ghost use Rattle.std.specs.List.{AllByRecursion};
ghost use Rattle.crew_host.specs.gate_log.declared.limits.TheConstants.{FARTHEST_END};
ghost use Rattle.snap_core.specs.snap_hand.Tables.{AreTables};
ghost use Rattle.snap_core.specs.snap_work.declared.limits.TheConstants.{MOST_WORKERS};

use crate::slow::{SlowLog, SlowSink};
use crate::texts::{BY_HAND, TOTAL, drawn, tables_of, text_of};
use aml_serial::run_alone;
use crew_host::{CrewEnd, FARTHEST_END, Log, MOST_WORKERS, Stop, drive_crew};
use snap_base::{ActorId, Memory, Place, State, TxNo, TxResult, Verdict};
use snap_core::{Core, Event, StepNo, Tables};
use snap_outside::{FreeGate, Gate, MemLog, MemSink};
use snap_report::reply_line;
use std::alloc::Global;
use std::sync::Wait;
use std::test::Fail;
use std::thread::Threads;
use trace_text::print_event;
use work_gen::generate;

/// A text has at most so many actors.
const MOST_ACTORS: u16 = 256;

/// An append to a log makes so many calls of its device, each of which the device keeps where it succeeds. Opening makes one more
/// that it does not keep.
const CALLS_OF_AN_APPEND: usize = 4;

/// Which calls fail: of the device of log 0, of that of log 1, and of the output, by their numbers from 1 on; 0 where none does.
/// And for how many turns of a loop each sync of a device and each write of the output goes on.
#[derive(Clone, Copy)]
pub struct Faults {
    pub first: u64,
    pub second: u64,
    pub out: u64,
    pub sync_turns: u64,
    pub write_turns: u64,
}

/// No call fails, and none goes on for long.
pub const NO_FAULTS: Faults = Faults {
    first: 0,
    second: 0,
    out: 0,
    sync_turns: 0,
    write_turns: 0,
};

impl Faults {
    /// The call that fails of this log's device.
    fn of(self, l: usize) -> u64 {
        match l {
            0 => self.first,
            1 => self.second,
            _ => 0,
        }
    }
}

/// What a crew ended with.
struct Ended {
    core: Core,
    devices: Vec<MemLog>,
    out: MemSink,
    failed: bool,
    stop: Stop,
    kept: Vec<Event>,
}

// By hand, so that whoever lets it go calls this, and does not repeat it.
impl Drop for Ended {
    fn drop(self) {
        let Ended {
            core: _core,
            devices: _devices,
            out: _out,
            failed: _failed,
            stop: _stop,
            kept: _kept,
        } = self;
    }
}

/// A list of this call, or of none.
fn fails(alloc: Global, call: u64) -> Result<Vec<u64>, Memory> {
    let mut calls = Vec::new(alloc);
    if call != 0 {
        calls.push(call)?;
    }
    Ok(calls)
}

/// A new log on a device of which this call fails, which is none of its opening, and whose syncs go on for so many turns.
fn open_log(alloc: Global, call: u64, turns: u64) -> Result<Log<SlowLog>, Memory>
    ensures open { IfOk result (λ log. log.shut ≡ false) }
    ensures end { IfOk result (λ log. log.end ≤ FARTHEST_END) }
    ensures format { IfOk result (λ log. log.format ≡ 2) }
{
    let device = SlowLog {
        log: MemLog::new(alloc, Vec::new(alloc), fails(alloc, call)?)?,
        turns,
    };
    match Log::open(alloc, device) {
        Ok(log) => of_format_2(log),
        Err(_) => Err(Memory),
    }
}

/// A new log is of format 2.
fn of_format_2(log: Log<SlowLog>) -> Result<Log<SlowLog>, Memory>
    ensures { IfOk result (λ l. (l ≡ log) × (l.format ≡ 2)) }
{
    if log.format() != 2 {
        let _device = log.into_dev();
        return Err(Memory);
    }
    Ok(log)
}

/// So many new logs.
fn open_logs(alloc: Global, count: u8, faults: Faults) -> Result<Vec<Log<SlowLog>>, Memory>
    ensures count { IfOk result (λ logs. vec_len logs ≡ count) }
    ensures open { IfOk result (λ logs. AllByRecursion (λ l. l.shut ≡ false) logs.items) }
    ensures ends { IfOk result (λ logs. AllByRecursion (λ l. l.end ≤ FARTHEST_END + 2 ^ 32) logs.items) }
    ensures formats { IfOk result (λ logs. AllByRecursion (λ l. l.format ≡ 2) logs.items) }
{
    let mut logs = Vec::with_capacity(alloc, count as usize)?;
    for l in 0..count {
        match open_log(alloc, faults.of(l as usize), faults.sync_turns) {
            Ok(log) => logs.push_reserved(log),
            Err(_) => {
                let _devices = devices_of(alloc, logs);
                return Err(Memory);
            }
        }
    }
    Ok(logs)
}

/// The devices of the logs.
fn devices_of(alloc: Global, logs: Vec<Log<SlowLog>>) -> Result<Vec<MemLog>, Memory> {
    let mut logs = logs;
    let mut devices = Vec::new(alloc);
    let mut all = Ok(());
    while let Some(log) = logs.pop() {
        if devices.push(log.into_dev().into_log()).is_err() {
            all = Err(Memory);
        }
    }
    logs.destroy_empty();
    all?;
    devices.reverse();
    Ok(devices)
}

/// What so many workers make of the text.
fn run<R: Threads + Wait + Sync, G: Gate + Sync>(
    rt: &R,
    alloc: Global,
    text: &[u8],
    faults: Faults,
    gate: &G,
    workers: usize,
) -> Result<Ended, Fail>
    requires { workers ≤ MOST_WORKERS }
{
    let core = Core::open(alloc, tables_of(alloc, text)?)?;
    let out = SlowSink {
        sink: MemSink::new(alloc, fails(alloc, faults.out)?)?,
        turns: faults.write_turns,
    };
    let logs = open_logs(alloc, core.tables().work.logs, faults)?;
    let CrewEnd {
        core,
        logs,
        out,
        failed,
        stop,
        kept,
    } = drive_crew(rt, alloc, core, logs, out, gate, workers);
    let devices = devices_of(alloc, logs)?;
    Ok(Ended {
        core,
        devices,
        out: out.into_sink(),
        failed,
        stop,
        kept,
    })
}

/// Appends what waits on log `l`, if there is such a log.
fn append(alloc: Global, core: &Core, logs: &mut Vec<Log<SlowLog>>, l: u8) -> Result<(), Memory> {
    if l >= core.tables().work.logs {
        return Ok(());
    }
    let pieces = core.group(l);
    let Some(log) = logs.get_mut(l as usize) else {
        return Ok(());
    };
    if log.format() != 2 || !log.may_append(pieces) {
        return Ok(());
    }
    match log.append(alloc, pieces) {
        Ok(()) => Ok(()),
        Err(_) => Err(Memory),
    }
}

/// Prints the line of transaction `n`, where its verdict is known.
fn print(alloc: Global, core: &Core, n: TxNo, lines: &mut String) -> Result<(), Memory> {
    if let Some(verdict) = core.verdict(n) {
        lines.push_str(&reply_line(alloc, n, &verdict)?)?;
    }
    Ok(())
}

/// Takes the event. Whether it is allowed.
fn take(
    alloc: Global,
    core: &mut Core,
    logs: &mut Vec<Log<SlowLog>>,
    lines: &mut String,
    event: Event,
) -> Result<bool, Memory> {
    match event {
        Event::Sync(l) => append(alloc, core, logs, l)?,
        Event::Reply(n) => print(alloc, core, n, lines)?,
        _ => {}
    }
    match core.step(alloc, event) {
        Ok(()) => Ok(true),
        Err(StepNo::NotNow { rule: _ }) => Ok(false),
        Err(StepNo::Memory) => Err(Memory),
    }
}

/// Takes the events one after the other, and then appends what waits on the logs that may have failed. Whether all are allowed.
fn take_all(
    alloc: Global,
    core: &mut Core,
    logs: &mut Vec<Log<SlowLog>>,
    lines: &mut String,
    ended: &Ended,
    faults: Faults,
) -> Result<bool, Memory> {
    for event in ended.kept.as_slice() {
        if !take(alloc, core, logs, lines, *event)? {
            return Ok(false);
        }
    }
    for l in 0..2u8 {
        if may_be_shut(ended.stop, faults, l as usize) {
            append(alloc, core, logs, l)?;
        }
    }
    Ok(true)
}

/// Whether the run ended for the fault of this log.
fn is_shut(stop: Stop, l: usize) -> bool {
    match stop {
        Stop::LogFault(log) => log as usize == l,
        _ => false,
    }
}

/// Whether a log may be shut behind a run that ended so. The first that is has told why.
fn may_be_shut(stop: Stop, faults: Faults, l: usize) -> bool {
    match stop {
        Stop::LogFault(first) => faults.of(l) != 0 && first as usize <= l,
        _ => false,
    }
}

/// Whether a device is as another one was behind as many calls, in what is read of it and in what is synced.
fn is_front(alloc: Global, device: &MemLog, whole: &MemLog) -> Result<bool, Memory> {
    let count = device.ops().len();
    // All calls were made: there is no need to make them anew, which takes long.
    if count == whole.ops().len() {
        return Ok(device.bytes() == whole.bytes());
    }
    if count > whole.ops().len() {
        return Ok(false);
    }
    for choice in [0, 2] {
        let left = device.image(alloc, count, choice)?;
        let wanted = whole.image(alloc, count, choice)?;
        if left.as_slice() != wanted.as_slice() {
            return Ok(false);
        }
    }
    Ok(true)
}

/// Whether the device of log `l`, which keeps so many of its calls, has had those of all its appends, and none that fails; or,
/// where the log may be shut, those up to the one that failed.
fn has_calls(count: usize, whole: usize, stop: Stop, faults: Faults, l: usize) -> bool {
    // With the call that asked for the length, and the next one.
    let next = (count as u64).saturating_add(2);
    let call = faults.of(l);
    let is_cut_off = count < whole && whole <= count.saturating_add(CALLS_OF_AN_APPEND);
    if is_shut(stop, l) {
        return is_cut_off && next == call;
    }
    if may_be_shut(stop, faults, l) {
        return is_cut_off || count == whole;
    }
    count == whole && (call == 0 || next <= call)
}

/// Whether the device of log `l` is as that of a plain journal is.
fn is_kept(
    alloc: Global,
    ended: &Ended,
    whole: &MemLog,
    faults: Faults,
    l: usize,
) -> Result<bool, Memory> {
    let Some(device) = ended.devices.get(l) else {
        return Ok(false);
    };
    let (count, all) = (device.ops().len(), whole.ops().len());
    Ok(has_calls(count, all, ended.stop, faults, l) && is_front(alloc, device, whole)?)
}

/// Whether the devices are as those of plain journals are.
fn are_kept(
    alloc: Global,
    ended: &Ended,
    wholes: &[MemLog],
    faults: Faults,
) -> Result<bool, Memory> {
    for l in 0..wholes.len() {
        if !is_kept(alloc, ended, &wholes[l], faults, l)? {
            return Ok(false);
        }
    }
    Ok(ended.devices.len() == wholes.len())
}

/// The actors' states.
fn states_of(alloc: Global, core: &Core) -> Result<Vec<State>, Memory> {
    let mut states = Vec::new(alloc);
    for a in 0..MOST_ACTORS {
        if (a as usize) < core.tables().opening.states.len() {
            states.push(core.state(ActorId(a)))?;
        }
    }
    Ok(states)
}

/// The sum of all fields.
fn total(states: &[State]) -> i64 {
    let mut total: i64 = 0;
    for state in states {
        for field in state.0 {
            total = total.wrapping_add(field);
        }
    }
    total
}

/// Where a transaction stands in the serial order and what it gave there, if it has a place.
pub type Placed = Option<(Place, TxResult)>;

/// What a verdict says of it.
fn placed_by(verdict: Option<Verdict>) -> Placed {
    match verdict {
        Some(Verdict::Committed { place, value }) => Some((place, TxResult::Value(value))),
        Some(Verdict::Code { place, code }) => Some((place, TxResult::Fail(code))),
        _ => None,
    }
}

/// Whether one comes before the other in the serial order.
fn is_before(one: (Place, usize), other: (Place, usize)) -> bool {
    one.0 < other.0 || (one.0 == other.0 && one.1 < other.1)
}

/// Whether one comes behind the last, where there is one, and before the next that is known, where one is.
fn is_between(
    last: Option<(Place, usize)>,
    one: (Place, usize),
    next: Option<(Place, usize)>,
) -> bool {
    if let Some(last) = last {
        if !is_before(last, one) {
            return false;
        }
    }
    match next {
        Some(next) => is_before(one, next),
        None => true,
    }
}

/// The transaction that comes next behind this one in the serial order.
fn next_behind(placed: &[Placed], last: Option<(Place, usize)>) -> Option<(Place, usize)> {
    let mut next = None;
    for n in 0..placed.len() {
        if let Some((place, _)) = placed[n] {
            if is_between(last, (place, n), next) {
                next = Some((place, n));
            }
        }
    }
    next
}

/// Whether the transaction, run alone, gives what it gave at its place. The states are then those that come next.
fn gives_the_same(
    alloc: Global,
    tables: &Tables,
    placed: Placed,
    states: &mut Vec<State>,
    n: usize,
) -> Result<bool, Memory>
    requires tables { AreTables tables.now }
    requires states { length states.old.items ≡ length tables.now.opening.states }
    ensures { length states.new.items ≡ length states.old.items }
{
    let Some(tx) = tables.work.txs.get(n) else {
        return Ok(false);
    };
    let given = run_alone(alloc, &tables.work.program, states, tx)?;
    Ok(match placed {
        Some((_, wanted)) => given == wanted,
        None => false,
    })
}

/// The states behind those with a place, one by one in the order of their places; none where one of them gives something else.
pub fn serial_states(
    alloc: Global,
    tables: &Tables,
    placed: &[Placed],
) -> Result<Option<Vec<State>>, Memory>
    requires { AreTables tables.now }
{
    let mut serial = Vec::from_slice(alloc, tables.opening.states.as_slice())?;
    let mut last = None;
    for _ in 0..placed.len() {
        let Some((place, n)) = next_behind(placed, last) else {
            break;
        };
        let wanted = match placed.get(n) {
            Some(wanted) => *wanted,
            None => None,
        };
        if !gives_the_same(alloc, tables, wanted, &mut serial, n)? {
            return Ok(None);
        }
        last = Some((place, n));
    }
    Ok(Some(serial))
}

/// Whether those with a place, one by one in the order of their places, give what they gave there, and these states.
fn is_serial(
    alloc: Global,
    tables: &Tables,
    verdicts: &[Option<Verdict>],
    states: &[State],
) -> Result<bool, Memory>
    requires { AreTables tables.now }
{
    let mut placed = Vec::new(alloc);
    for verdict in verdicts {
        placed.push(placed_by(*verdict))?;
    }
    Ok(match serial_states(alloc, tables, placed.as_slice())? {
        Some(serial) => serial.as_slice() == states,
        None => false,
    })
}

/// What is not so of a run to its end; nothing, where all is.
fn untrue_at_the_end(
    alloc: Global,
    core: &Core,
    states: &[State],
    wanted: Option<i64>,
) -> Result<&'static str, Memory> {
    let allowed = core.enabled(alloc)?;
    if allowed.count() != 0 {
        return Ok("no event is allowed");
    }
    let verdicts = core.verdicts(alloc)?;
    if verdicts.contains(&None) {
        return Ok("each transaction has a reply");
    }
    if !is_serial(alloc, core.tables(), verdicts.as_slice(), states)? {
        return Ok("the states are those of the serial run");
    }
    match wanted {
        Some(wanted) if wanted != total(states) => Ok("the sum of all fields stays"),
        _ => Ok(""),
    }
}

/// Whether a run ended for what had failed.
fn has_cause(ended: &Ended, faults: Faults, lines: &str) -> bool {
    // The write that comes next.
    let next = lines.split('\n').count() as u64;
    if ended.failed && next != faults.out {
        return false;
    }
    if !ended.failed && faults.out != 0 && next > faults.out {
        return false;
    }
    match ended.stop {
        Stop::Quiet => !ended.failed,
        Stop::LogFault(l) => faults.of(l as usize) != 0,
        Stop::OutFault => ended.failed,
        Stop::Memory => false,
    }
}

/// What is not so of what a crew ended with, where the events are taken once more by this core, with these logs.
fn untrue_with(
    alloc: Global,
    ended: &Ended,
    faults: Faults,
    wanted: Option<i64>,
    mut core: Core,
    mut logs: Vec<Log<SlowLog>>,
) -> Result<&'static str, Memory> {
    let mut lines = String::new(alloc);
    let taken = take_all(alloc, &mut core, &mut logs, &mut lines, ended, faults);
    let wholes = devices_of(alloc, logs)?;
    if !taken? {
        return Ok("each event is allowed");
    }
    if !has_cause(ended, faults, lines.as_str()) {
        return Ok("the run ended for what failed first");
    }
    if ended.out.bytes() != lines.as_bytes() {
        return Ok("the output has the lines of the replies");
    }
    if !are_kept(alloc, ended, wholes.as_slice(), faults)? {
        return Ok("the devices have the groups of the Syncs");
    }
    let states = states_of(alloc, &core)?;
    let left = states_of(alloc, &ended.core)?;
    if left.as_slice() != states.as_slice() {
        return Ok("the states are those of the core");
    }
    let (told, verdicts) = (ended.core.verdicts(alloc)?, core.verdicts(alloc)?);
    if told.as_slice() != verdicts.as_slice() {
        return Ok("the verdicts are those of the core");
    }
    if ended.stop != Stop::Quiet {
        return Ok("");
    }
    untrue_at_the_end(alloc, &core, states.as_slice(), wanted)
}

/// What is not so of what a crew made of the text; nothing, where all is.
fn untrue(
    alloc: Global,
    text: &[u8],
    ended: &Ended,
    faults: Faults,
    wanted: Option<i64>,
) -> Result<&'static str, Fail> {
    let core = Core::open(alloc, tables_of(alloc, text)?)?;
    let logs = open_logs(alloc, core.tables().work.logs, NO_FAULTS)?;
    Ok(untrue_with(alloc, ended, faults, wanted, core, logs)?)
}

/// Runs the text by so many workers, with this gate before their slices, and tells what is not so, and behind it the events that
/// they took.
pub fn run_untrue_at<R: Threads + Wait + Sync, G: Gate + Sync>(
    rt: &R,
    alloc: Global,
    text: &[u8],
    workers: usize,
    faults: Faults,
    gate: &G,
    wanted: Option<i64>,
) -> Result<String, Fail>
    requires { workers ≤ MOST_WORKERS }
{
    let ended = run(rt, alloc, text, faults, gate, workers)?;
    let mut told = String::from_str(alloc, untrue(alloc, text, &ended, faults, wanted)?)?;
    if !told.is_empty() {
        told.push_str("; taken were\n")?;
        for event in ended.kept.as_slice() {
            print_event(&mut told, *event)?;
        }
    }
    Ok(told)
}

/// The same, where each slice begins at once.
fn run_untrue<R: Threads + Wait + Sync>(
    rt: &R,
    alloc: Global,
    text: &[u8],
    workers: usize,
    faults: Faults,
    wanted: Option<i64>,
) -> Result<String, Fail>
    requires { workers ≤ MOST_WORKERS }
{
    run_untrue_at(rt, alloc, text, workers, faults, &FreeGate::new(), wanted)
}

/// These calls fail, and none goes on for long.
fn failing(first: u64, second: u64, out: u64) -> Faults {
    Faults {
        first,
        second,
        out,
        ..NO_FAULTS
    }
}

/// Faults of a number, on one log, on two, on the output and on both kinds.
pub fn faults_of(number: u64) -> Faults {
    let (call, out) = (4 + number / 5, 1 + number / 5);
    match number % 5 {
        0 => failing(call, 0, 0),
        1 => failing(0, call, 0),
        2 => failing(call, call, 0),
        3 => failing(0, 0, out),
        _ => failing(call, 0, out),
    }
}

/// How many workers the run with this number has: two to eight.
fn workers_of(number: u64) -> usize
    ensures { result ≤ MOST_WORKERS }
{
    2 + (number % 7) as usize
}

/// What is not so of a run, with what it takes to run it again.
pub fn told(alloc: Global, workers: usize, of: &str, wrong: &str) -> Result<String, Memory> {
    Ok(format!(in alloc; "{workers} workers, {of}: {wrong}")?)
}

/// What is not so of a run of the texts by hand.
fn untrue_by_hand<R: Threads + Wait + Sync>(rt: &R, alloc: Global) -> Result<String, Fail> {
    for (settings, lines) in BY_HAND {
        let text = text_of(alloc, settings, lines)?;
        for number in 0..14u64 {
            let workers = workers_of(number);
            let wrong = run_untrue(rt, alloc, text.as_slice(), workers, NO_FAULTS, Some(TOTAL))?;
            if !wrong.is_empty() {
                return Ok(told(alloc, workers, lines, wrong.as_str())?);
            }
        }
    }
    Ok(String::new(alloc))
}

/// What is not so of a run of the texts that seeds draw.
fn untrue_of_drawn<R: Threads + Wait + Sync>(rt: &R, alloc: Global) -> Result<String, Fail> {
    for seed in 0..616u64 {
        let text = drawn(alloc, seed)?;
        let workers = workers_of(seed);
        let wrong = run_untrue(rt, alloc, text.as_slice(), workers, NO_FAULTS, Some(TOTAL))?;
        if !wrong.is_empty() {
            let of = format!(in alloc; "drawn by {seed}")?;
            return Ok(told(alloc, workers, of.as_str(), wrong.as_str())?);
        }
    }
    Ok(String::new(alloc))
}

/// What is not so of a run of generated texts.
fn untrue_of_generated<R: Threads + Wait + Sync>(rt: &R, alloc: Global) -> Result<String, Fail> {
    for seed in 0..100u64 {
        let text = generate(alloc, 12, seed)?;
        let workers = workers_of(seed);
        let wrong = run_untrue(rt, alloc, text.as_slice(), workers, NO_FAULTS, None)?;
        if !wrong.is_empty() {
            let of = format!(in alloc; "generated by {seed}")?;
            return Ok(told(alloc, workers, of.as_str(), wrong.as_str())?);
        }
    }
    Ok(String::new(alloc))
}

/// What is not so of a run in which calls of the devices and of the output fail.
fn untrue_with_faults<R: Threads + Wait + Sync>(rt: &R, alloc: Global) -> Result<String, Fail> {
    let (settings, lines) = BY_HAND[5];
    let text = text_of(alloc, settings, lines)?;
    for number in 0..200u64 {
        let (workers, faults) = (workers_of(number), faults_of(number));
        let wrong = run_untrue(rt, alloc, text.as_slice(), workers, faults, Some(TOTAL))?;
        if !wrong.is_empty() {
            let of = format!(in alloc; "faults {number}")?;
            return Ok(told(alloc, workers, of.as_str(), wrong.as_str())?);
        }
    }
    Ok(String::new(alloc))
}

/// What crews make of texts is what one core makes of them that takes the crew's events. A wrong run is told with its number, its
/// workers and its events.
#[test]
fn crews_do_what_one_core_does(rt: HostRuntime) -> Result<(), Fail> {
    let alloc = rt.alloc();
    assert_eq!(rt; untrue_by_hand(&rt, alloc)?.as_str(), "");
    assert_eq!(rt; untrue_of_drawn(&rt, alloc)?.as_str(), "");
    assert_eq!(rt; untrue_of_generated(&rt, alloc)?.as_str(), "");
    assert_eq!(rt; untrue_with_faults(&rt, alloc)?.as_str(), "");
    Ok(())
}
