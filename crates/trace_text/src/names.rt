//! The names of events as lines have them.
ghost use Rattle.std.specs.Prelude.{◌≡◌, Some, IfSome};
ghost use Rattle.trace_text.specs.declared.names.Name as name;
ghost use Rattle.trace_text.specs.Lines.{name_text};

/// The name of an event.
#[derive(Clone, Copy)]
pub(crate) enum Name {
    Submit,
    Pass,
    Form,
    Admit,
    Arrive,
    Ask,
    Take,
    Run,
    Send,
    End,
    Close,
    Complete,
    Sync,
    Note,
    Commit,
    Settle,
    AbortBatch,
    Rollback,
    DropSub,
    DropControl,
    Prepare,
    Vouch,
    Decide,
    Seal,
    Finish,
    Reply,
    Trim,
}

/// Each name once.
const NAMES: [Name; 27] = [
    Name::Submit,
    Name::Pass,
    Name::Form,
    Name::Admit,
    Name::Arrive,
    Name::Ask,
    Name::Take,
    Name::Run,
    Name::Send,
    Name::End,
    Name::Close,
    Name::Complete,
    Name::Sync,
    Name::Note,
    Name::Commit,
    Name::Settle,
    Name::AbortBatch,
    Name::Rollback,
    Name::DropSub,
    Name::DropControl,
    Name::Prepare,
    Name::Vouch,
    Name::Decide,
    Name::Seal,
    Name::Finish,
    Name::Reply,
    Name::Trim,
];

/// The name as it is printed.
pub(crate) fn text_of(name: Name) -> &'static str
    ensures { result.now ≡ name_text name }
{
    match name {
        Name::Submit => "submit",
        Name::Pass => "pass",
        Name::Form => "form",
        Name::Admit => "admit",
        Name::Arrive => "arrive",
        Name::Ask => "ask",
        Name::Take => "take",
        Name::Run => "run",
        Name::Send => "send",
        Name::End => "end",
        Name::Close => "close",
        Name::Complete => "complete",
        Name::Sync => "sync",
        Name::Note => "note",
        Name::Commit => "commit",
        Name::Settle => "settle",
        Name::AbortBatch => "abort",
        Name::Rollback => "rollback",
        Name::DropSub => "dropsub",
        Name::DropControl => "dropcontrol",
        Name::Prepare => "prepare",
        Name::Vouch => "vouch",
        Name::Decide => "decide",
        Name::Seal => "seal",
        Name::Finish => "finish",
        Name::Reply => "reply",
        Name::Trim => "trim",
    }
}

/// The name that a word spells.
pub(crate) fn name_of(word: &[u8]) -> Option<Name>
    ensures found { IfSome result (λ n. word.now ≡ name_text n) }
    ensures only { (n : name.Name) → word.now ≡ name_text n → result ≡ Some n }
{
    for name in NAMES {
        if word == text_of(name).as_bytes() {
            return Some(name);
        }
    }
    None
}
