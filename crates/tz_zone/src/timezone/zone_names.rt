//! Names of time zones.

ghost use Rattle.std.specs.Prelude.{◌↔◌, IsTrue, All, codes};
ghost use Rattle.tz_zone.specs.ZoneNames.{IsZoneNameByte, IsZoneNamePart, IsZoneName, SaysOfName};

use anyhow::anyhow;

/// Whether a name may have the byte.
fn is_name_byte(byte: u8) -> bool
    ensures { IsTrue result ↔ IsZoneNameByte byte }
{
    matches!(byte, b'0'..=b'9' | b'A'..=b'Z' | b'a'..=b'z' | b'.' | b'_' | b'+' | b'-')
}

/// Whether all of the bytes may stand in a name.
fn are_name_bytes(part: &[u8]) -> bool
    ensures { IsTrue result ↔ All IsZoneNameByte part.now }
{
    for byte in part {
        if !is_name_byte(*byte) {
            return false;
        }
    }
    true
}

/// Whether a name may have the part.
fn is_name_part(part: &[u8]) -> bool
    ensures { IsTrue result ↔ IsZoneNamePart part.now }
{
    !matches!(part, [] | [b'.'] | [b'.', b'.']) && are_name_bytes(part)
}

/// Whether the text is a name of the form that [`TimeZone::named`](super::TimeZone::named) looks
/// for. (tz database, Timezone identifiers)
///
/// A name has one part or several, with `/` between them. A part is one or more ASCII letters,
/// digits, `.`, `_`, `+` and `-`, and neither `.` nor `..`.
pub fn is_zone_name(name: &str) -> bool
    ensures { IsTrue result ↔ IsZoneName name.now }
{
    name.as_bytes()
        .split(|byte| *byte == b'/')
        .all(is_name_part)
}

/// The error of a text that is no name.
pub(super) fn not_a_name(text: &str) -> anyhow::Error
    ensures { SaysOfName (codes "not a time zone name: ") text.now result }
{
    anyhow!("not a time zone name: {text}")
}

/// The error of a name that no zone has.
pub(super) fn no_such_zone(name: &str) -> anyhow::Error
    ensures { SaysOfName (codes "no time zone has the name ") name.now result }
{
    anyhow!("no time zone has the name {name}")
}
