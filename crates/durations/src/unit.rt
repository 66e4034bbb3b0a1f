// The units of durations.
ghost use Rattle.std.specs.Prelude.{◌≡◌, ◌<◌, length, map};
ghost use Rattle.durations.specs.Duration.{units};
ghost use Rattle.durations.specs.Inner.Units.{unit_at, unit_of, IsUnit};

// A unit of time: its name and its milliseconds.
#[derive(Clone, Copy)]
pub struct TimeUnit {
    pub name: &'static [u8],
    pub milliseconds: u64,
}

// How many units there are.
pub const UNITS: usize = 6;

static TABLE: [TimeUnit; UNITS] = [
    TimeUnit {
        name: b"w",
        milliseconds: 604_800_000,
    },
    TimeUnit {
        name: b"d",
        milliseconds: 86_400_000,
    },
    TimeUnit {
        name: b"h",
        milliseconds: 3_600_000,
    },
    TimeUnit {
        name: b"m",
        milliseconds: 60_000,
    },
    TimeUnit {
        name: b"s",
        milliseconds: 1_000,
    },
    TimeUnit {
        name: b"ms",
        milliseconds: 1,
    },
];

// The units, from the largest to the smallest.
pub(crate) fn units() -> &'static [TimeUnit; UNITS]
    ensures { map unit_of result.now ≡ units }
{
    &TABLE
}

// The unit of a rank. No function calls it now: it stays, since it was promised.
#[tactic(auto, using(crate::proofs::Laws::DurationLaws::at_rank))]
pub fn time_unit(rank: usize) -> TimeUnit
    requires { rank < length units }
    ensures { IsUnit (unit_at rank) result }
{
    units()[rank]
}
