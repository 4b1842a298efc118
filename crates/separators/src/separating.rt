ghost use Rattle.std.specs.Prelude.{◌≡◌, ◌+◌, ◌<◌, ◌≤◌, IfSome, MatchBool, MatchOption, length, take};
ghost use Rattle.std.specs.Bool.{OnTrue};
ghost use Rattle.separators.specs.Separators.{HaveInCommon, IsSeparator, Separates, UpTo, in_common};

// How many bytes two strings have in common at the front.
pub fn common_prefix_len(left: &[u8], right: &[u8]) -> usize
    ensures count { result ≡ in_common left.now right.now }
    ensures front { HaveInCommon left.now right.now (in_common left.now right.now) }
{
    left.iter().zip(right).take_while(|(l, r)| l == r).count()
}

// Whether the strings rise, by the first byte that they do not have in common. It then ends their separator.
fn rises(left: &[u8], right: &[u8], common: usize) -> bool
    requires { common ≡ in_common left.now right.now }
    ensures order { MatchBool result (common < length right.now) (UpTo right.now left.now) }
    ensures shortest { OnTrue result (IsSeparator left.now right.now (take (common + 1) right.now)) }
    ensures between { OnTrue result (Separates left.now right.now (take (common + 1) right.now)) }
{
    left.get(common) < right.get(common)
}

// The separator of two keys: the shortest beginning of the right one that stands behind the left one. None where the keys do not rise.
pub fn separator<'a>(left: &[u8], right: &'a [u8]) -> Option<&'a [u8]>
    ensures shortest { MatchOption result (UpTo right.now left.now) (λ s. IsSeparator left.now right.now s.now) }
    ensures between { IfSome result (λ s. Separates left.now right.now s.now) }
    ensures sized { IfSome result (λ s. (0 < length s.now) × (length s.now ≤ length right.now)) }
{
    let common = common_prefix_len(left, right);
    if rises(left, right, common) {
        Some(&right[..=common])
    } else {
        None
    }
}
