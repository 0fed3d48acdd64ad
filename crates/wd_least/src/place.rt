//! Where sort keys can be added for a call or a limit that is open.

ghost use Rattle.std.specs.Prelude.{◌≡◌, [], IfOk, OnOk};
ghost use Rattle.std.specs.List.{list_any};
ghost use Rattle.wd_least.specs.Sites as spec;

use std::alloc::Global;
use wd_analyse::Reason;
use wd_sites::{KeyPlace, PlanSite};
use wd_value::OutOfMemory;

/// Where keys can be added for a call or a limit, each place once, in the order of its sites.
pub(crate) fn places_at(
    alloc: Global,
    sites: &[PlanSite],
    reason: Reason,
) -> Result<Vec<KeyPlace>, OutOfMemory>
    ensures { IfOk result (λ places. places.items ≡ spec.places_at reason [] sites.now) }
{
    let mut places = Vec::new(alloc);
    for found in sites {
        add_place(&mut places, reason, *found)?;
    }
    Ok(places)
}

/// Adds the place of a site, if the site is one of the call or the limit and the place is new.
fn add_place(places: &mut Vec<KeyPlace>, reason: Reason, found: PlanSite) -> Result<(), OutOfMemory>
    ensures { OnOk result (places.new.items ≡ spec.with_site reason places.old.items found) }
{
    if found.node != reason.node || found.call != reason.call {
        return Ok(());
    }
    if let Some(key) = found.site.key {
        if !has_place(places, key) {
            places.push(key)?;
        }
    }
    Ok(())
}

/// Whether the places have this one already.
fn has_place(places: &[KeyPlace], key: KeyPlace) -> bool
    ensures { result ≡ list_any (spec.is_at key) places.now }
{
    for place in places {
        if place.at == key.at {
            return true;
        }
    }
    false
}
