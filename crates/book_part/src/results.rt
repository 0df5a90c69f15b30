//! How an ACT ended, where it has ended.
ghost use Rattle.std.specs.Prelude.{◌≡◌};
ghost use Rattle.protocol.specs.Words.{is_failure, is_value, value_of};

use snap_base::TxResult;

pub(crate) fn is_value(outcome: Option<TxResult>) -> bool
    ensures { result ≡ is_value outcome }
{
    match outcome {
        Some(TxResult::Value(_)) => true,
        Some(TxResult::Fail(_)) | None => false,
    }
}

/// The value; 0 where there is none.
pub(crate) fn value_of(outcome: Option<TxResult>) -> i64
    ensures { result ≡ value_of outcome }
{
    match outcome {
        Some(TxResult::Value(value)) => value,
        Some(TxResult::Fail(_)) | None => 0,
    }
}

pub(crate) fn is_failure(outcome: Option<TxResult>) -> bool
    ensures { result ≡ is_failure outcome }
{
    match outcome {
        Some(TxResult::Fail(_)) => true,
        Some(TxResult::Value(_)) | None => false,
    }
}
