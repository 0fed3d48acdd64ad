//! Sorted orderings, one of which takes rows that tie in another turn than the others.

ghost use Rattle.std.specs.Prelude.{◌≡◌};
ghost use Rattle.wd_eval.specs.Tied as spec;

use wd_partition::Turn;

/// The ordering with this number takes the positions in this turn; all others take them as given.
#[derive(Clone, Copy)]
pub struct Turned {
    pub number: u32,
    pub turn: Turn,
}

/// The turn in which the sorted ordering with this number takes the positions.
pub(crate) fn turn_of(turned: Option<Turned>, number: usize) -> Turn
    ensures { result ≡ spec.turn_of turned number }
{
    match turned {
        None => Turn::AsGiven,
        Some(turned) => {
            if turned.number as usize == number {
                turned.turn
            } else {
                Turn::AsGiven
            }
        }
    }
}

/// Where the ordering with this number is flipped, it takes the positions last to first.
pub(crate) fn reverse_at(flipped: Option<u32>) -> Option<Turned>
    ensures { result ≡ spec.reverse_at flipped }
{
    match flipped {
        None => None,
        Some(number) => Some(Turned {
            number,
            turn: Turn::Reversed,
        }),
    }
}
