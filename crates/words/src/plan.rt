ghost use Rattle.std.specs.Prelude.{◌≡◌, true, false, ◌||◌, MatchOption, ◌==◌};
ghost use Rattle.refusals.specs.Answer.{answer_as};
ghost use Rattle.keys.specs.Means.{directions_of};
ghost use Rattle.codes.specs.Refusals.{key_told};
ghost use Rattle.words.specs.Plans.{direction_of, plan_word};

use inline::Inline;
use keys::{Direction, KeyFault, Plan};

// The plan that a word of letters writes, a column each: `a` ascends, `d` descends. Refused by 5.
pub fn read_plan(word: &[u8]) -> Result<Plan, KeyFault>
    ensures { answer_as directions_of key_told result ≡ plan_word word.now }
{
    let mut columns = Inline::<Direction, 8>::new();
    for letter in word {
        let direction = direction(*letter).ok_or(KeyFault::Columns)?;
        columns.push(direction).map_err(|_| KeyFault::Columns)?;
    }
    Plan::new(columns.as_slice())
}

// The direction that a letter stands for.
fn direction(letter: u8) -> Option<Direction>
    ensures { MatchOption result ((letter == 97 || letter == 100) ≡ false) (λ d. ((letter == 97 || letter == 100) ≡ true) × (d ≡ direction_of letter)) }
{
    match letter {
        b'a' => Some(Direction::Ascending),
        b'd' => Some(Direction::Descending),
        _ => None,
    }
}
