//! The constant patterns, for callers that are proved: a constant is checked where it is used.

ghost use Rattle.std.specs.Prelude.{◌≡◌, codes};

use crate::pattern::{Pattern, UtcPattern};

/// [`Pattern::RFC_2822`].
#[tactic(auto, unfolding(crate::specs::Patterns::items_after, crate::specs::Conversions::conversion_at, crate::specs::Conversions::letter_conversion, crate::specs::Widths::conversion_width))]
pub fn rfc_2822() -> Pattern<'static>
    ensures { result.text.now ≡ codes "%a, %d %b %Y %H:%M:%S %z" }
{
    Pattern::RFC_2822
}

/// [`Pattern::RFC_3339_MILLIS`].
#[tactic(auto, unfolding(crate::specs::Patterns::items_after, crate::specs::Conversions::conversion_at, crate::specs::Conversions::fraction_at, crate::specs::Conversions::letter_conversion, crate::specs::Widths::conversion_width))]
pub fn rfc_3339_millis() -> Pattern<'static>
    ensures { result.text.now ≡ codes "%Y-%m-%dT%H:%M:%S%.3f%:z" }
{
    Pattern::RFC_3339_MILLIS
}

/// [`Pattern::COMMON_LOG`].
#[tactic(auto, unfolding(crate::specs::Patterns::items_after, crate::specs::Conversions::conversion_at, crate::specs::Conversions::letter_conversion, crate::specs::Widths::conversion_width))]
pub fn common_log() -> Pattern<'static>
    ensures { result.text.now ≡ codes "%d/%b/%Y:%H:%M:%S %z" }
{
    Pattern::COMMON_LOG
}

/// [`UtcPattern::HTTP_DATE`].
#[tactic(auto, unfolding(crate::specs::Patterns::items_after, crate::specs::Conversions::conversion_at, crate::specs::Conversions::letter_conversion, crate::specs::Widths::conversion_width))]
pub fn http_date() -> UtcPattern<'static>
    ensures { result.pattern.text.now ≡ codes "%a, %d %b %Y %H:%M:%S GMT" }
{
    UtcPattern::HTTP_DATE
}
