ghost use Rattle.std.specs.Prelude.{◌≡◌};
ghost use Rattle.refusals.specs.Answer.{answer_as};
ghost use Rattle.codes.specs.Decimals.{Range};
ghost use Rattle.codes.specs.Making.{exponent_answer};
ghost use Rattle.codes.specs.Refusals.{key_told};

use crate::fault::KeyFault;

// The exponent of a decimal: from −240 to 240.
#[derive(Clone, Copy)]
pub struct Exponent {
    pub(crate) power: i32,
    ghost range: { Range power },
}

impl Exponent {
    // This exponent; refused by 3. A maker by name, like that of a decimal: it takes what may be refused.
    pub(crate) fn new(power: i32) -> Result<Exponent, KeyFault>
        ensures { answer_as (λ e. e.power) key_told result ≡ exponent_answer power }
    {
        if power < -240 || power > 240 {
            return Err(KeyFault::Exponent);
        }
        Ok(Exponent { power })
    }
}
