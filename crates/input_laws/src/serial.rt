//! What an input in order says: from its bytes to a serial run, as the language means it.
ghost use Rattle.std.specs.Prelude.{ℕ, List};
ghost use Rattle.snap_work.specs.Works.{Work};
ghost use Rattle.work_text.specs.Reads.{IsWork};
ghost use Rattle.audit_laws.specs.AsMeant.{PrintedAsMeant};
ghost use Rattle.audit_words.specs.Inputs.{IsInOrder};
ghost use Rattle.audit_words.specs.Papers.{AreParts, IsReport, Line};

use crate::parts_are_one;
use audit_laws::{one_report, papers_tell_serial_runs};
use work_text::one_work;

/// Of an input in order, with the work that its text stands for and the lines of its report: each transaction has one reply, and no two
/// printed places are equal; the printed values and states are those of the committed transactions, run one by one in the order of
/// their places as the language means each; and who failed by its own code fails so at its place.
pub fn inputs_tell_serial_runs()
    ensures { (input text trace report : List ℕ) (w : Work) (ls : List Line) → IsInOrder input → AreParts input text trace report → IsWork text w → IsReport report ls → PrintedAsMeant w ls }
{
    parts_are_one();
    one_work();
    one_report();
    papers_tell_serial_runs();
}
