//! Putting decoded lists into a record.
ghost use Rattle.passkey_json.specs.Held.{IsPlaced};

use passkey_bytes::List;
use passkey_json::{JsonFault, TolerantList};

/// Puts a decoded list in place of an old one, or returns the fault and leaves the old one.
#[inline(always)]
pub(crate) fn place_list<T: Drop>(
    place: &mut List<T>,
    read: Result<TolerantList<T>, JsonFault>,
) -> Result<(), JsonFault>
    ensures { IsPlaced read place.old place.new result }
{
    *place = read?.into_list();
    Ok(())
}
