//! Terms that join the list, where they are not listed yet.

ghost use Rattle.std.specs.Prelude.{◌≡◌, ◌<◌, ◌^◌, ℕ, OnOk, length};
ghost use Rattle.wh_system.specs.Systems.{SystemData};
ghost use Rattle.wh_loop_reached.specs.Listing.{AreMarked, IsEntry, IsLinked, IsListing, Takes, arrival_of};

use std::alloc::AllocError;
use wh_loop_reached::{Entry, Listing, add, is_listed};

/// The entry joins at the end, if its term is not listed with its start.
pub fn list_if_new(listing: &mut Listing, entry: Entry) -> Result<(), AllocError>
    requires few { length listing.old.entries.items < 2 ^ 32 }
    requires keys { length listing.old.marks ≡ 16384 }
    requires marked { AreMarked listing.old.marks listing.old.entries.items }
    ensures { OnOk result ((d : SystemData) (level : ℕ) → IsListing d level listing.old → IsEntry d level entry
        → IsLinked d.rules listing.old.entries.items entry → Takes d level listing.old (arrival_of entry) listing.new) }
{
    if is_listed(listing, entry.visit.start, &entry.visit.term) {
        return Ok(());
    }
    add(listing, entry)?;
    Ok(())
}
