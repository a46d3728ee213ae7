//! Readers of TZif files and of TZ strings, and the writer of TZ strings.

ghost use Rattle.std.specs.Prelude.{◌≡◌, ◌∷◌, MatchOption};
ghost use Rattle.tz_zone.specs.TzText.{Begins};

pub(crate) mod tz_file;
pub(crate) mod tz_string;
pub(crate) mod tz_string_writer;

/// The rest of the bytes, if the first of them is `byte`.
pub fn after_byte(text: &[u8], byte: u8) -> Option<&[u8]>
    ensures { MatchOption result (¬ Begins byte text.now) (λ rest. text.now ≡ byte ∷ rest.now) }
{
    match text {
        [first, rest @ ..] if *first == byte => Some(rest),
        _ => None,
    }
}
