//! The table of a zone: transitions, and a view that reads them one at a time.

ghost use Rattle.std.specs.Prelude.{◌≡◌};

mod transition_view;

use std::hash::{Hash, Hasher};
use std::marker::Model;
pub use transition_view::TransitionView;

/// A leap time from which on a local time type holds.
#[repr(C)]
#[derive(Clone, Copy, Debug, PartialEq, Eq)]
pub struct Transition {
    unix_leap_time: i64,
    local_time_type_index: usize,
}

impl Model for Transition {
    ghost use Rattle.tz_zone.specs.Table.{Transition};

    ghost Value = { Transition };

    ghost view = { λ t. record {
      unix_leap_time = t.unix_leap_time;
      type_index =
          t.local_time_type_index;
    } };

    ghost inverse = { λ t. record {
      unix_leap_time = t.unix_leap_time;
      local_time_type_index =
          t.type_index;
    } };
}

impl Hash for Transition {
    ghost use Rattle.std.specs.Cmp.Rules.{hashing};
    ghost use Rattle.std.proofs.Common.{rules};
    ghost use Rattle.tz_zone.specs.ZoneHash.{transition_input};

    ghost hash_input = { transition_input };

    ghost respects_eq = { Prim.search (hashing, rules) };

    fn hash<H: Hasher>(&self, state: &mut H) {
        self.unix_leap_time.hash(state);
        self.local_time_type_index.hash(state);
    }
}

impl Transition {
    /// The transition at this leap time to the type with this number.
    pub const fn new(unix_leap_time: i64, local_time_type_index: usize) -> Self
        ensures { result ≡ record {
          unix_leap_time = unix_leap_time;
          type_index =
              local_time_type_index;
        } }
    {
        Transition {
            unix_leap_time,
            local_time_type_index,
        }
    }

    /// The leap time: Unix time with the leap seconds so far counted in.
    pub const fn unix_leap_time(&self) -> i64
        ensures { result ≡ self.now.unix_leap_time }
    {
        self.unix_leap_time
    }

    /// The number of the type in the zone's list.
    pub const fn local_time_type_index(&self) -> usize
        ensures { result ≡ self.now.type_index }
    {
        self.local_time_type_index
    }
}
