//! The first condition that is false.
ghost use Rattle.std.specs.Prelude.{◌≡◌, ◌<◌, length};
ghost use Rattle.protocol.specs.Conditions.{first_false};

/// The number of the first answer that is no, from 1 on, or 0 where all are yes.
pub(crate) fn first_no(answers: &[bool]) -> u8
    requires { length answers.now < 255 }
    ensures { result ≡ first_false 1 answers.now }
{
    let mut rule = 1;
    for answer in answers {
        if !*answer {
            return rule;
        }
        rule += 1;
    }
    0
}
