//! How a call ended, and the line that the program writes of it.
ghost use Rattle.std.specs.Prelude.{◌≡◌, IfOk, string_bytes};
ghost use Rattle.snap_report.specs.Lines.{text_cause_text, check_cause_text, program_cause_text, cause_text, log_cause_text, audit_text, status_text};

use crate::audit_faults::AuditFault;
use aml_resolver::CheckCause;
use aml_tokens::TextCause;
use snap_base::Memory;
use snap_recover::LogCause;
use snap_work::{ProgramCause, WorkCause};
use std::alloc::Global;

/// How the top call ended. The number behind each is the program's exit status.
#[derive(Clone, Copy, Debug, PartialEq, Eq)]
pub enum Status {
    /// 0: the input was read to its end, every transaction has a reply, and all was written.
    Done,
    /// 1: the words of the command line are no form. `word` is the place, from 0 on, of the first word
    /// with which they begin none, or their number where all of them begin one.
    Usage {
        word: u32,
    },
    /// 2: the text stands for no work: its first fault.
    Input {
        line: u32,
        cause: WorkCause,
    },
    /// 3: what the log holds is refused. `offset` is the place in the file where the file is, or one of its
    /// records, is the cause, and else 0.
    Logs {
        log: u8,
        offset: u64,
        cause: LogCause,
    },
    /// 4: there was no memory.
    Memory,
    /// 5: the source failed.
    ReadFault,
    /// 6: the device that holds this log failed.
    LogFault {
        log: u8,
    },
    /// 7: the sink failed.
    OutFault,
    /// 8: every transaction has a reply and all was written but the trace, whose sink failed.
    TraceFault,
    /// 10: the input of an audit is not in order: what is wrong with it first.
    Audit {
        fault: AuditFault,
    },
    /// 11: the logs are too many to be compacted: the two sides of a compaction have at most two each.
    Compact {
        logs: u8,
    },
}

impl Status {
    ghost use Rattle.std.specs.Prelude.{◌≡◌};
    ghost use Rattle.snap_report.specs.Lines.{status_number};

    /// The exit status of the program.
    pub fn number(&self) -> u8
        ensures { result ≡ status_number self.now }
    {
        match self {
            Status::Done => 0,
            Status::Usage { .. } => 1,
            Status::Input { .. } => 2,
            Status::Logs { .. } => 3,
            Status::Memory => 4,
            Status::ReadFault => 5,
            Status::LogFault { .. } => 6,
            Status::OutFault => 7,
            Status::TraceFault => 8,
            Status::Audit { .. } => 10,
            Status::Compact { .. } => 11,
        }
    }
}

/// The line that the program writes to standard error; nothing for `Done`.
pub fn status_line(alloc: Global, status: &Status) -> Result<String, Memory>
    ensures { IfOk result (λ s. string_bytes s ≡ status_text status.now) }
{
    match *status {
        Status::Done => Ok(String::new(alloc)),
        Status::Usage { word } => Ok(format!(in alloc; "snapper: usage: word {word}\n")?),
        Status::Input { line, cause } => {
            let cause = cause_name(cause);
            Ok(format!(in alloc; "snapper: line {line}: {cause}\n")?)
        }
        Status::Logs { log, offset, cause } => {
            let cause = log_cause_name(cause);
            Ok(format!(in alloc; "snapper: log {log} at {offset}: {cause}\n")?)
        }
        Status::Memory => Ok(String::from_str(alloc, "snapper: out of memory\n")?),
        Status::ReadFault => Ok(String::from_str(alloc, "snapper: read fault\n")?),
        Status::LogFault { log } => Ok(format!(in alloc; "snapper: log fault {log}\n")?),
        Status::OutFault => Ok(String::from_str(alloc, "snapper: output fault\n")?),
        Status::TraceFault => Ok(String::from_str(alloc, "snapper: trace fault\n")?),
        Status::Audit { fault } => audit_line(alloc, fault),
        Status::Compact { logs } => Ok(format!(in alloc; "snapper: compact: {logs} logs\n")?),
    }
}

/// The line of an input that is not in order: what is wrong, and where.
fn audit_line(alloc: Global, fault: AuditFault) -> Result<String, Memory>
    ensures { IfOk result (λ s. string_bytes s ≡ audit_text fault) }
{
    match fault {
        AuditFault::Parts => Ok(String::from_str(alloc, "snapper: audit: Parts\n")?),
        AuditFault::Text(fault) => {
            let (line, cause) = (fault.line, cause_name(fault.cause));
            Ok(format!(in alloc; "snapper: audit: Text {line} {cause}\n")?)
        }
        AuditFault::Trace { line } => Ok(format!(in alloc; "snapper: audit: Trace {line}\n")?),
        AuditFault::Report { line } => Ok(format!(in alloc; "snapper: audit: Report {line}\n")?),
        AuditFault::Clause { clause, at } => {
            Ok(format!(in alloc; "snapper: audit: Clause {clause} {at}\n")?)
        }
    }
}

/// The cause's name, as it is written in the code; of a program's, that of what is wrong with the program.
fn cause_name(cause: WorkCause) -> &'static str
    ensures { result.now ≡ cause_text cause }
{
    match cause {
        WorkCause::NotUtf8 => "NotUtf8",
        WorkCause::BadHeader => "BadHeader",
        WorkCause::Program(cause) => program_cause_name(cause),
        WorkCause::BadActor => "BadActor",
        WorkCause::BadTx => "BadTx",
        WorkCause::Limit { .. } => "Limit",
        WorkCause::RootNotDeclared => "RootNotDeclared",
    }
}

fn program_cause_name(cause: ProgramCause) -> &'static str
    ensures { result.now ≡ program_cause_text cause }
{
    match cause {
        ProgramCause::Text { cause, .. } => text_cause_name(cause),
        ProgramCause::Check(cause) => check_cause_name(cause),
    }
}

fn text_cause_name(cause: TextCause) -> &'static str
    ensures { result.now ≡ text_cause_text cause }
{
    match cause {
        TextCause::BadByte => "BadByte",
        TextCause::BadToken => "BadToken",
        TextCause::Unexpected => "Unexpected",
        TextCause::NumberRange => "NumberRange",
        TextCause::TooDeep => "TooDeep",
        TextCause::TooMany => "TooMany",
    }
}

fn check_cause_name(cause: CheckCause) -> &'static str
    ensures { result.now ≡ check_cause_text cause }
{
    match cause {
        CheckCause::UnknownName => "UnknownName",
        CheckCause::Duplicate => "Duplicate",
        CheckCause::ArgCount => "ArgCount",
        CheckCause::NoReturn => "NoReturn",
        CheckCause::ReadWrites => "ReadWrites",
    }
}

/// The name of a log's cause, as it is written in the code.
fn log_cause_name(cause: LogCause) -> &'static str
    ensures { result.now ≡ log_cause_text cause }
{
    match cause {
        LogCause::NotALog => "NotALog",
        LogCause::Damage => "Damage",
        LogCause::OldFormat => "OldFormat",
        LogCause::BadRecord => "BadRecord",
        LogCause::Stray => "Stray",
        LogCause::Back => "Back",
        LogCause::NoGenesis => "NoGenesis",
        LogCause::TwoGenesis => "TwoGenesis",
        LogCause::LogCount { .. } => "LogCount",
        LogCause::Range { .. } => "Range",
        LogCause::Missing { .. } => "Missing",
        LogCause::Values { .. } => "Values",
        LogCause::Spent { .. } => "Spent",
        LogCause::Differs { .. } => "Differs",
    }
}
