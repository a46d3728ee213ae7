//! The lesser and the greater of two numbers. No constant may call `min` or `max`, which are of a
//! trait.

ghost use Rattle.std.specs.Prelude.{◌≡◌};
ghost use Rattle.std.specs.Int.{int_min, int_max};

/// The lesser of two numbers of 32 bits.
pub const fn lesser_i32(a: i32, b: i32) -> i32
    ensures { result ≡ int_min a b }
{
    if b < a { b } else { a }
}

/// The greater of two numbers of 32 bits.
pub const fn greater_i32(a: i32, b: i32) -> i32
    ensures { result ≡ int_max a b }
{
    if b < a { a } else { b }
}

/// The lesser of two numbers of 64 bits.
pub const fn lesser_i64(a: i64, b: i64) -> i64
    ensures { result ≡ int_min a b }
{
    if a < b { a } else { b }
}

/// The greater of two numbers of 64 bits.
pub const fn greater_i64(a: i64, b: i64) -> i64
    ensures { result ≡ int_max a b }
{
    if a < b { b } else { a }
}
