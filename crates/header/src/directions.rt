ghost use Rattle.std.specs.Prelude.{◌≡◌, ◌-◌, ◌*◌, ◌/◌, ◌^◌, ◌≤◌, length, take};
ghost use Rattle.header.specs.Directions.{direction_bits};

use keys::Direction;

// The directions as bits, the first column's the highest.
pub(crate) fn bits_of(directions: &[Direction]) -> u8
    requires { length directions.now ≤ 8 }
    ensures { result ≡ direction_bits 8 directions.now }
{
    let mut bits = 0;
    for (i, direction) in directions.iter().enumerate() {
        if let Direction::Descending = direction {
            bits += 1 << (7 - i);
        }
    }
    bits
}

// The directions that the bits of so many columns tell; behind them any.
pub(crate) fn directions_in(bits: u8, columns: usize) -> [Direction; 8]
    requires { columns ≤ 8 }
    ensures { direction_bits 8 (take columns result) ≡ bits / 2 ^ (8 - columns) * 2 ^ (8 - columns) }
{
    let mut directions = [Direction::Ascending; 8];
    for i in 0..columns {
        directions[i] = if (bits >> (7 - i)) % 2 == 1 {
            Direction::Descending
        } else {
            Direction::Ascending
        };
    }
    directions
}
