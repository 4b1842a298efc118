ghost use Rattle.std.specs.Prelude.{◌≡◌};
ghost use Rattle.std.specs.Ordering.{MatchOrdering};
ghost use Rattle.codes.specs.Strings.{Less};
ghost use Rattle.keys.specs.Ordering.{ByKeys};

use std::cmp::Ordering;

// How two keys compare: byte by byte, a proper beginning first. Keys of one plan compare as their records do.
#[tactic(auto, using(crate::proofs::Ranks::says, crate::proofs::Ranks::told))]
pub fn compare(left: &[u8], right: &[u8]) -> Ordering
    ensures bytes { MatchOrdering result (Less left.now right.now) (left.now ≡ right.now) (Less right.now left.now) }
    ensures records { ByKeys result left.now right.now }
{
    left.cmp(&right)
}
