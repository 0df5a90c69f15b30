//! A law of devices that got no call.
ghost use Rattle.std.specs.Prelude.{List};
ghost use Rattle.std.specs.List.{AllZip};
ghost use Rattle.log_opening.specs.Devices.{Device};
ghost use Rattle.log_opening.specs.Found.{IsTouched};

/// A device that got no call counts as one that got opening's calls at most, and holds what it held.
pub fn no_call_is_safe()
    ensures { (ds : List Device) → AllZip IsTouched ds ds }
{}
