//! Buckets.

ghost use Rattle.std.specs.Prelude.{◌≡◌, ◌+◌, ◌<◌, ◌≤◌, ◌^◌};
ghost use Rattle.wd_plan.specs.Calls as calls;

/// The bucket of a place, from 1, where `members` members are dealt to `buckets` buckets as evenly as possible, the larger ones first.
pub(crate) fn bucket(buckets: u64, members: usize, place: usize) -> u64
    requires { members < 2 ^ 63 }
    ensures value { place < members → result ≡ calls.bucket buckets members place }
    ensures within { result ≤ place + 1 }
{
    if buckets == 0 || members <= place {
        return 1;
    }
    let members = members as u64;
    let place = place as u64;
    let smaller = members / buckets;
    let larger_buckets = members % buckets;
    let in_larger = larger_buckets * (smaller + 1);
    if place < in_larger {
        place / (smaller + 1) + 1
    } else {
        larger_buckets + (place - in_larger) / smaller + 1
    }
}
