//! A law on what a crew made of the journals and the output.
ghost use Rattle.std.specs.Prelude.{◌≡◌, List, Some, length};
ghost use Rattle.aml_slice.specs.Controls.{Rest};
ghost use Rattle.crew_ends.specs.Ends.{AreBeside, AreDue};
ghost use Rattle.crew_parts.specs.Crews.{AreFirstShares, HasCome, OutputIs};
ghost use Rattle.crew_parts.specs.Shares.{OutputState, ShareState};
ghost use Rattle.gate_log.specs.State.{LogState, is_log_shut};
ghost use Rattle.protocol.specs.Events as machine;
ghost use Rattle.protocol.specs.Fixed.{Fixed};
ghost use Rattle.run_effects.specs.Driven.{AreDriven};

/// A law, cited by a call: if a crew has come from a beginning to some shares, the journals beside them got the groups of its Syncs;
/// the Sync of each journal that is shut is still to come; and the output got the lines of its replies.
pub fn crews_drive()
    ensures journals { (w : Fixed Rest) (start now : List ShareState) (es : List machine.Event) (old new : List LogState) (before after : OutputState) →
        AreFirstShares w start → HasCome w start es now → AreBeside old before start → AreBeside new after now → length old ≡ w.text.logs → length new ≡ w.text.logs → AreDriven w es (is_log_shut new) old new }
    ensures due { (w : Fixed Rest) (start now : List ShareState) (es : List machine.Event) (new : List LogState) (after : OutputState) →
        AreFirstShares w start → HasCome w start es now → AreBeside new after now → length new ≡ w.text.logs → AreDue w es new }
    ensures output { (w : Fixed Rest) (start now : List ShareState) (es : List machine.Event) (old new : List LogState) (before after : OutputState) →
        AreFirstShares w start → HasCome w start es now → AreBeside old before start → AreBeside new after now → OutputIs w es (Some before) (Some after) }
{}
