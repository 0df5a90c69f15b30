//! Texts and pieces of texts are told as their rows say: words as numbers, texts as tokens, programs as they are printed, work
//! texts by their fault or their work, and transactions by what they give. All stands in one module and is one test, since each
//! of these costs the prover some ten seconds before its first function.

ghost use Rattle.snap_work.specs.Kept.{KeepsLimits};
ghost use Rattle.snap_work.specs.Works.{work_of};

use crate::lines::{LINE_LIMITS, TRANSACTIONS, WORKS};
use crate::pieces::{BASE, FAULTS, NUMBERS, PRINTED, RUNS, TOKENS};
use crate::programs::{LIMITS, PROMISES, TEXT_FAULTS};
use aml_parser::{TextNo, parse_program};
use aml_print::print_program;
use aml_serial::{run_alone, run_list};
use aml_tokens::{Token, lex};
use decimal_words::{natural, signed};
use snap_base::{Memory, State, TxResult};
use snap_work::{ProgramCause, Work, WorkCause, WorkFault, WorkNo};
use std::alloc::{AllocError, Global};
use std::test::Fail;
use work_text::{parse_work, transactions_may_run};

/// What a row asks, and what is wanted, which is its last part.
fn halves(row: &str) -> (&str, &str) {
    row.rsplit_once('|').unwrap_or(("", "no part"))
}

/// How many parts there are.
fn count(asked: &str) -> usize {
    asked.split('|').count()
}

/// The part with this number, from 0 on.
fn part(asked: &str, number: usize) -> &str {
    asked.split('|').nth(number).unwrap_or("")
}

/// The numbers that a word spells.
fn spelled(alloc: Global, word: &str) -> Result<String, Memory> {
    let bytes = word.as_bytes();
    let (unsigned, with_sign) = (natural(bytes), signed(bytes));
    Ok(format!(in alloc; "{unsigned:?} {with_sign:?}")?)
}

/// A token as the rows write it.
fn token_told(alloc: Global, token: Token<'_>) -> Result<String, Memory> {
    match token {
        Token::Name { name, line } => name_told(alloc, name, line),
        Token::Number(number) => Ok(format!(in alloc; "{number}")?),
        Token::Field { field, line } => Ok(format!(in alloc; "f{field}:{line}")?),
        Token::Symbol(symbol) => Ok(format!(in alloc; "{symbol:?}")?),
        Token::Let { line } => Ok(format!(in alloc; "let:{line}")?),
        Token::CloseBrace { line } => Ok(format!(in alloc; "}}:{line}")?),
    }
}

fn name_told(alloc: Global, name: &[u8], line: u32) -> Result<String, Memory> {
    let name = str::from_utf8(name).unwrap_or("no text");
    Ok(format!(in alloc; "{name}:{line}")?)
}

/// Tokens, each behind its place.
fn tokens_told(alloc: Global, places: &[usize], tokens: &[Token<'_>]) -> Result<String, Memory> {
    let mut all = String::new(alloc);
    for (place, token) in places.iter().zip(tokens) {
        let token = token_told(alloc, *token)?;
        all.push_str(&format!(in alloc; "{place} {token} ")?)?;
    }
    Ok(all)
}

/// The tokens of a text as the rows write them.
fn tokens_of(alloc: Global, text: &str) -> Result<String, Memory> {
    let lexed = lex(alloc, text.as_bytes())?;
    let all = tokens_told(alloc, &lexed.places, &lexed.tokens)?;
    match lexed.stop {
        Some((place, cause)) => Ok(format!(in alloc; "{all}{place} {cause:?}")?),
        None => Ok(format!(in alloc; "{all}end")?),
    }
}

/// What a text is printed as where it is a program's; else the line, the column and the cause of its first fault.
fn printed(alloc: Global, text: &str) -> Result<String, Memory> {
    match parse_program(alloc, text) {
        Ok(program) => print_program(alloc, &program),
        Err(TextNo::Memory) => Err(Memory),
        Err(TextNo::Fault(fault)) => {
            let (line, column) = (fault.line, fault.column);
            let cause = fault.cause;
            Ok(format!(in alloc; "{line}:{column} {cause:?}")?)
        }
    }
}

/// The line with this number, or what stands in its place.
fn line_at<'a>(
    number: usize,
    line: &'a str,
    first: (usize, &'a [u8]),
    second: (usize, &'a [u8]),
) -> &'a [u8] {
    if number == first.0 {
        first.1
    } else if number == second.0 {
        second.1
    } else {
        line.as_bytes()
    }
}

/// The base text with two lines, counted from 1, replaced by bytes.
fn with_lines(
    alloc: Global,
    first: (usize, &[u8]),
    second: (usize, &[u8]),
) -> Result<Vec<u8>, AllocError> {
    let mut text = Vec::new(alloc);
    for (at, line) in BASE.iter().enumerate() {
        text.extend_from_slice(line_at(at + 1, line, first, second))?;
        text.push(b'\n')?;
    }
    Ok(text)
}

/// The base text with one line, counted from 1, replaced by bytes.
fn with_line(alloc: Global, number: usize, bytes: &[u8]) -> Result<Vec<u8>, AllocError> {
    with_lines(alloc, (number, bytes), (0, b""))
}

/// The base text with another program and no transaction.
fn with_program(alloc: Global, program: &str) -> Result<Vec<u8>, AllocError> {
    with_lines(alloc, (8, program.as_bytes()), (12, b""))
}

/// A part as often as is said, between a front and what stands behind.
fn repeated(
    alloc: Global,
    front: &str,
    part: &str,
    count: usize,
    behind: &str,
) -> Result<String, AllocError> {
    let mut text = String::from_str(alloc, front)?;
    for _ in 0..count {
        text.push_str(part)?;
    }
    text.push_str(behind)?;
    Ok(text)
}

/// A fault: the line, the column where there is one, and the cause with the number that was found, if it has one.
fn fault_told(alloc: Global, fault: WorkFault) -> Result<String, Memory> {
    let line = fault.line;
    match fault.cause {
        WorkCause::Program(ProgramCause::Text { cause, column }) => {
            Ok(format!(in alloc; "{line}:{column} {cause:?}")?)
        }
        WorkCause::Program(ProgramCause::Check(cause)) => Ok(format!(in alloc;
            "{line} {cause:?}"
        )?),
        WorkCause::Limit { which, found } => Ok(format!(in alloc; "{line} {which:?} {found}")?),
        cause => Ok(format!(in alloc; "{line} {cause:?}")?),
    }
}

/// A work: its coordinators, logs, transactions of a batch, live batches and live ACTs, and the kinds of its transactions.
fn shown(alloc: Global, work: &Work) -> Result<String, Memory> {
    let (coordinators, logs, batch) = (work.coordinators, work.logs, work.batch);
    let (batches, acts) = (work.batches, work.acts);
    let mut shown = format!(in alloc; "{coordinators} {logs} {batch} {batches} {acts}")?;
    for tx in work.txs.as_slice() {
        let kind = tx.kind;
        shown.push_str(&format!(in alloc; " {kind:?}")?)?;
    }
    Ok(shown)
}

/// What is wrong with a text first; or, where nothing is, `good`, or the work that it stands for.
fn answer(alloc: Global, text: &[u8], is_shown: bool) -> Result<String, Memory> {
    match parse_work(alloc, text) {
        Ok(work) if is_shown => shown(alloc, &work),
        Ok(_) => Ok(String::from_str(alloc, "good")?),
        Err(WorkNo::Memory) => Err(Memory),
        Err(WorkNo::Fault(fault)) => fault_told(alloc, fault),
    }
}

/// The number that a part spells, and 0 where it spells none.
fn number(asked: &str, at: usize) -> usize {
    part(asked, at).parse().unwrap_or(0)
}

fn bytes(asked: &str, at: usize) -> &[u8] {
    part(asked, at).as_bytes()
}

/// A line so many times, and one behind it.
fn with_transactions(alloc: Global, asked: &str) -> Result<Vec<u8>, AllocError> {
    let lines = repeated(alloc, "", part(asked, 0), number(asked, 1), part(asked, 2))?;
    with_lines(alloc, (4, b"batch 256"), (12, lines.as_bytes()))
}

fn with_two_lines(alloc: Global, asked: &str) -> Result<Vec<u8>, AllocError> {
    with_lines(
        alloc,
        (number(asked, 0), bytes(asked, 1)),
        (number(asked, 2), bytes(asked, 3)),
    )
}

/// A front, a part so many times, what stands between, what closes as often, and what stands behind.
fn with_limit(alloc: Global, asked: &str) -> Result<Vec<u8>, AllocError> {
    let count = number(asked, 2);
    let opened = repeated(alloc, part(asked, 0), part(asked, 1), count, part(asked, 3))?;
    let program = repeated(alloc, &opened, part(asked, 4), count, part(asked, 5))?;
    with_program(alloc, &program)
}

/// The text that a row stands for, by the number of its parts.
fn text_of(alloc: Global, asked: &str) -> Result<Vec<u8>, AllocError> {
    match count(asked) {
        1 => with_program(alloc, asked),
        2 => with_line(alloc, number(asked, 0), bytes(asked, 1)),
        3 => with_transactions(alloc, asked),
        4 => with_two_lines(alloc, asked),
        _ => with_limit(alloc, asked),
    }
}

/// What is wrong with a row's text, or its work.
fn found(alloc: Global, asked: &str, is_shown: bool) -> Result<String, Memory> {
    let text = text_of(alloc, asked)?;
    answer(alloc, &text, is_shown)
}

/// A text of a program, of actors, and of lines that ask for transactions.
fn transactions_text(
    alloc: Global,
    program: &str,
    actors: &str,
    txs: &str,
) -> Result<String, AllocError> {
    format!(in alloc;
        "snapper 1\ncoordinators 1\nlogs 1\nbatch 16\nbatches 1\nacts 1\nprogram\n{program}\nend\n{actors}\n{txs}\n"
    )
}

/// Results, and the first field of each actor.
fn results_told(
    alloc: Global,
    results: &[TxResult],
    world: &[State],
) -> Result<String, AllocError> {
    let mut text = String::new(alloc);
    for result in results {
        text.push_str(&format!(in alloc; "{result:?} ")?)?;
    }
    text.push_str("then")?;
    for state in world {
        let first = state.0[0];
        text.push_str(&format!(in alloc; " {first}")?)?;
    }
    Ok(text)
}

/// What the one transaction of a work gives alone; or that there is not one.
fn alone_gives(alloc: Global, work: &Work) -> Result<String, Memory>
    requires { KeepsLimits (work_of work.now) }
{
    let [tx] = work.txs.as_slice() else {
        return Ok(String::from_str(alloc, "not one transaction")?);
    };
    let mut world = Vec::from_slice(alloc, work.states.as_slice())?;
    let result = run_alone(alloc, &work.program, &mut world, tx)?;
    Ok(results_told(alloc, &[result], &world)?)
}

/// What the transactions of a work give, one after the other.
fn list_gives(alloc: Global, work: &Work) -> Result<String, Memory>
    requires { KeepsLimits (work_of work.now) }
{
    let mut world = Vec::from_slice(alloc, work.states.as_slice())?;
    let results = run_list(alloc, &work.program, &mut world, work.txs.as_slice())?;
    Ok(results_told(alloc, results.as_slice(), &world)?)
}

fn work_gives(alloc: Global, how: &str, work: &Work) -> Result<String, Memory>
    requires { KeepsLimits (work_of work.now) }
{
    match how {
        "alone" => alone_gives(alloc, work),
        _ => list_gives(alloc, work),
    }
}

/// What a text's transactions give; or why there are none.
fn gives(alloc: Global, how: &str, text: &str) -> Result<String, Memory> {
    // a text that stands for a work has transactions that may be run on its states
    transactions_may_run();
    match parse_work(alloc, text.as_bytes()) {
        Ok(work) => work_gives(alloc, how, &work),
        Err(WorkNo::Memory) => Err(Memory),
        Err(WorkNo::Fault(fault)) => Ok(format!(in alloc; "{fault:?}")?),
    }
}

/// What a row's transactions give.
fn row_gives(alloc: Global, asked: &str) -> Result<String, Memory> {
    let text = transactions_text(alloc, part(asked, 1), part(asked, 2), part(asked, 3))?;
    gives(alloc, part(asked, 0), &text)
}

/// What a row asks for.
#[derive(Clone, Copy)]
enum Piece {
    Number,
    Tokens,
    Program,
    /// What is wrong with a text, or `good`.
    Text,
    /// The work that a text stands for.
    Work,
    Transactions,
}

fn told(alloc: Global, piece: Piece, asked: &str) -> Result<String, Memory> {
    match piece {
        Piece::Number => spelled(alloc, asked),
        Piece::Tokens => tokens_of(alloc, asked),
        Piece::Program => printed(alloc, asked),
        Piece::Text => found(alloc, asked, false),
        Piece::Work => found(alloc, asked, true),
        Piece::Transactions => row_gives(alloc, asked),
    }
}

/// The pieces and the tables of their rows.
const TABLES: [(Piece, &str); 11] = [
    (Piece::Number, NUMBERS),
    (Piece::Tokens, TOKENS),
    (Piece::Program, FAULTS),
    (Piece::Program, PRINTED),
    (Piece::Text, LINE_LIMITS),
    (Piece::Text, TEXT_FAULTS),
    (Piece::Text, LIMITS),
    (Piece::Text, PROMISES),
    (Piece::Text, TRANSACTIONS),
    (Piece::Work, WORKS),
    (Piece::Transactions, RUNS),
];

#[test]
fn texts_are_told_as_their_rows_say(rt: HostRuntime) -> Result<(), Fail> {
    let alloc = rt.alloc();
    for (piece, table) in TABLES {
        for row in table.split('@') {
            let (asked, wanted) = halves(row);
            let text = told(alloc, piece, asked)?;
            assert_eq!(rt; text.as_str(), wanted, "{row}");
        }
    }
    Ok(())
}
