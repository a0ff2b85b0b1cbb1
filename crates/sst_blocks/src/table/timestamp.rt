//! Timestamps.
use std::marker::Model;
use std::ops::Deref;

/// A timestamp in nanoseconds.
///
/// In contracts it is the number.
#[derive(Clone, Copy, Debug, PartialEq, Eq, PartialOrd, Ord)]
pub struct Timestamp(u128);

impl Model for Timestamp {
    ghost use Rattle.std.specs.Prelude.{ℕ, ◌<◌, ◌^◌};

    ghost Value = { ℕ };

    ghost view = { λ t. t.0 };

    ghost inverse = { λ n. record { 0 = n } };

    ghost invariant = { λ t. t.0 < 2 ^ 128 };
}

impl Deref for Timestamp {
    ghost use Rattle.std.specs.Prelude.{◌≡◌};

    type Target = u128;

    ghost deref_gives = { λ t n. n ≡ t };

    fn deref(&self) -> &u128 {
        &self.0
    }
}

impl From<u128> for Timestamp {
    ghost use Rattle.std.specs.Prelude.{◌≡◌};

    ghost from_gives = { λ n t. t ≡ n };

    fn from(nanos: u128) -> Timestamp {
        Timestamp(nanos)
    }
}

impl From<Timestamp> for u128 {
    ghost use Rattle.std.specs.Prelude.{◌≡◌};

    ghost from_gives = { λ t n. n ≡ t };

    fn from(moment: Timestamp) -> u128 {
        moment.0
    }
}
