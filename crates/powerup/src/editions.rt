// The two editions and their limits.
ghost use Rattle.std.specs.Prelude.{◌≡◌};
ghost use Rattle.powerup.specs.Limits.{edition_of, limits_of};

use crate::{Interval, Limits, Refusal};

#[derive(Clone, Copy)]
pub(crate) enum Edition {
    First,
    Second,
}

impl TryFrom<u32> for Edition {
    type Error = Refusal;

    ghost try_from_gives = { λ number r. r ≡ edition_of number };

    fn try_from(number: u32) -> Result<Edition, Refusal> {
        match number {
            1 => Ok(Edition::First),
            2 => Ok(Edition::Second),
            _ => Err(Refusal::WrongEdition),
        }
    }
}

impl Edition {
    #[tactic(auto, unfolding(crate::specs::Limits::first_edition, crate::specs::Limits::second_edition))]
    pub(crate) fn limits(self) -> Limits
        ensures { result ≡ limits_of self }
    {
        match self {
            Edition::First => FIRST,
            Edition::Second => SECOND,
        }
    }
}

const FIRST: Limits = Limits {
    ones: Interval {
        low: 9654,
        high: 10346,
    },
    poker: Interval {
        low: 1562822,
        high: 1580437,
    },
    runs: [
        Interval {
            low: 2267,
            high: 2733,
        },
        Interval {
            low: 1079,
            high: 1421,
        },
        Interval {
            low: 502,
            high: 748,
        },
        Interval {
            low: 223,
            high: 402,
        },
        Interval { low: 90, high: 223 },
        Interval { low: 90, high: 223 },
    ],
    long: 34,
};

const SECOND: Limits = Limits {
    ones: Interval {
        low: 9725,
        high: 10275,
    },
    poker: Interval {
        low: 1563176,
        high: 1576928,
    },
    runs: [
        Interval {
            low: 2315,
            high: 2685,
        },
        Interval {
            low: 1114,
            high: 1386,
        },
        Interval {
            low: 527,
            high: 723,
        },
        Interval {
            low: 240,
            high: 384,
        },
        Interval {
            low: 103,
            high: 209,
        },
        Interval {
            low: 103,
            high: 209,
        },
    ],
    long: 26,
};
