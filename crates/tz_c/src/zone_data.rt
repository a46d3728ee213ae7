//! Zones as C passes them.

ghost use Rattle.std.specs.Prelude.{◌≡◌};
ghost use Rattle.tz_zone.specs.Offsets.{AreEndOffsets};
ghost use Rattle.tz_zone.specs.ValidZone.{IsSoundTable, IsSoundTable-prop, IsValidZone};
ghost use Rattle.tz_c.specs.Zones.{zone_of_parts};

use crate::zones::{OffsetsData, PartsData, rule_of_lists};
use tz_zone::inner;

/// Parts that make a zone, and its offsets.
#[repr(C)]
#[derive(Clone, Copy)]
pub struct TzZone<'a> {
    pub(crate) parts: PartsData<'a>,
    offsets: OffsetsData,
    ghost sound: { IsSoundTable (zone_of_parts parts) } by { IsSoundTable-prop
        (zone_of_parts parts) },
    ghost valid: { ∥ IsValidZone (zone_of_parts parts) ∥₁ },
    ghost ends: { ∥ AreEndOffsets (zone_of_parts parts) offsets.least offsets.greatest ∥₁ },
}

impl<'a> TzZone<'a> {
    ghost use Rattle.tz_zone.specs.ZoneOfData.{zone_of_data as borrowed_zone};
    ghost use Rattle.tz_c.specs.ZoneOfData.{zone_of_data};

    /// The zone as calls of the library take it.
    pub(crate) fn as_zone_data(&self) -> inner::ZoneData<'a>
        ensures { borrowed_zone result ≡ zone_of_data self.now }
    {
        inner::ZoneData::from_valid_parts(
            self.parts.transitions,
            self.parts.local_time_types,
            self.parts.leap_seconds,
            rule_of_lists(self.parts.fixed, self.parts.alternate),
            self.offsets.least,
            self.offsets.greatest,
        )
    }
}
