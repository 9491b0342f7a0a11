// The rule that no two words overlap.
ghost use Rattle.std.specs.Prelude.{◌≡◌};
ghost use Rattle.std.specs.List.Sorted.{IsNonDecreasingBy};
ghost use Rattle.macho_image.specs.Order.{first_close, addresses_of};

use crate::Location;

/// The size of a word.
const WORD: u64 = 8;

/// Of locations in address order, the address of the first that has another one less than a word away.
pub fn first_close(locations: &[Location]) -> Option<u64>
    requires { IsNonDecreasingBy (λ l. l.address) locations.now }
    ensures { result ≡ first_close (addresses_of locations.now) }
{
    for i in 1..locations.len() {
        let low = locations[i - 1].address;
        if locations[i].address.saturating_sub(low) < WORD {
            return Some(low);
        }
    }
    None
}
