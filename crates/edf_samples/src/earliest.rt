//! The earliest difference of several channels.

ghost use Rattle.std.specs.Prelude.{◌≡◌, IfSome, Some};
ghost use Rattle.std.specs.Option.{option_map};
ghost use Rattle.edf_samples.specs.Differences.{earlier as earlier_of, found};
ghost use Rattle.edf_samples.specs.InstantOrder.{IsModest};

use crate::difference::PointDifference;
use crate::instants::is_before;

/// A difference, and the place of its channel among those that were compared.
#[derive(Clone, Copy)]
pub struct Found {
    pub channel: usize,
    pub difference: PointDifference,
}

/// The earlier of two differences, and the first where they are at one instant.
pub(crate) fn earlier(a: Option<Found>, b: Option<Found>) -> Option<Found>
    requires a { IfSome a (λ f. IsModest f.difference.at) }
    requires b { IfSome b (λ f. IsModest f.difference.at) }
    ensures value { result ≡ earlier_of a b }
    ensures modest { IfSome result (λ f. IsModest f.difference.at) }
{
    match (a, b) {
        (Some(x), Some(y)) => {
            if is_before(y.difference.at, x.difference.at) {
                b
            } else {
                a
            }
        }
        (Some(_), None) => a,
        (None, _) => b,
    }
}

/// Puts a difference in the place of what is held, where that isn't earlier. It is a call of its own since it comes
/// seldom: the loop over all channels then has its variables to itself.
#[inline(never)]
fn hold_earlier(found: Found, held: &mut Option<Found>)
    requires found { IsModest found.difference.at }
    requires held { IfSome held.old (λ f. IsModest f.difference.at) }
    ensures value { held.new ≡ earlier_of (Some found) held.old }
    ensures modest { IfSome held.new (λ f. IsModest f.difference.at) }
{
    *held = earlier(Some(found), *held);
}

/// Puts the difference of the channel at a place in the place of what is held, where that isn't earlier. Mostly there is
/// no difference, and what is held stays.
#[inline(always)]
pub fn keep_earlier(channel: usize, difference: Option<PointDifference>, held: &mut Option<Found>)
    requires difference { IfSome difference (λ d. IsModest d.at) }
    requires held { IfSome held.old (λ f. IsModest f.difference.at) }
    ensures value { held.new ≡ earlier_of (option_map (found channel) difference) held.old }
    ensures modest { IfSome held.new (λ f. IsModest f.difference.at) }
{
    if let Some(difference) = difference {
        hold_earlier(
            Found {
                channel,
                difference,
            },
            held,
        );
    }
}
