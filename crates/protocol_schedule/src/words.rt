//! The words that a seed draws.

ghost use Rattle.std.specs.Prelude.{◌≡◌, List, [], ◌∷◌, map};
ghost use Rattle.protocol.specs.Words.{below};
ghost use Rattle.protocol_schedule.specs.Draw.{word_of};

/// The first eight words of the seeds 1, 7 and 2^64 - 1. The values are those of a PCG32 written from
/// O'Neill's paper in another language, which gives the words that the generator's C code prints for its
/// demonstration (seed 42, stream 54: a15c02b7, 7b47f409, ba1d3330, 83d2f293, bfa4784b, cbed606e).
pub fn words_of_some_seeds()
    ensures one { map (word_of 1) (below 8) ≡ 3795398737 ∷ 17903413 ∷ 3545275701 ∷ 194195274 ∷ 2326030198 ∷ 2354257974 ∷ 2697798104 ∷ 3102124240 ∷ [] }
    ensures seven { map (word_of 7) (below 8) ≡ 4063834449 ∷ 2143014202 ∷ 2740157135 ∷ 3385478207 ∷ 3546536764 ∷ 785995372 ∷ 1850770085 ∷ 2179942517 ∷ [] }
    ensures greatest { map (word_of 18446744073709551615) (below 8) ≡ 0 ∷ 3837872008 ∷ 932996374 ∷ 1548399547 ∷ 1612522464 ∷ 473443212 ∷ 3522865942 ∷ 1734871597 ∷ [] }
{}
