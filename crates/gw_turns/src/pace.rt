//! How often a store is tried.

ghost use Rattle.std.specs.Prelude.{◌≡◌};
ghost use Rattle.gw_turns.specs.Pace.{fresh_pace, may_try, next_pause, one_more, paced, rested, ticked};

/// At how many events a store is tried at most between two ticks.
pub(crate) const MOST_REPLACES: u64 = 64;

/// How many ticks a store rests at most.
pub(crate) const LONGEST_PAUSE: u64 = 60;

/// How often a store may be tried: how long it rests, and how many tries there were since the last tick.
#[derive(Clone, Copy)]
pub struct Pace {
    /// How many ticks it rests after the last try, none if that one succeeded.
    pub pause: u64,
    /// How many of these are left.
    pub left: u64,
    /// How many tries there were since what is due at the last tick was done.
    pub replaces: u64,
}

/// A count and one more, unless it would pass its end.
pub fn one_more(count: u64) -> u64
    ensures { result ≡ one_more count }
{
    if count < u64::MAX { count + 1 } else { count }
}

/// The pause after a try that failed, by the pause before it: 1, 2, 4, 8, 16, 32, and then 60 ticks.
pub(crate) fn next_pause(pause: u64) -> u64
    ensures { result ≡ next_pause pause }
{
    if pause == 0 {
        return 1;
    }
    if pause > LONGEST_PAUSE / 2 {
        return LONGEST_PAUSE;
    }
    pause * 2
}

impl Pace {
    /// Before the first try.
    pub(crate) fn fresh() -> Self
        ensures { result ≡ fresh_pace }
    {
        Pace {
            pause: 0,
            left: 0,
            replaces: 0,
        }
    }

    /// Whether it may be tried at an event: it doesn't rest, and there were few tries since the last tick.
    pub(crate) fn may_try(self) -> bool
        ensures { result ≡ may_try self }
    {
        self.left == 0 && self.replaces < MOST_REPLACES
    }

    /// After a try, by whether it succeeded.
    pub(crate) fn paced(self, is_kept: bool) -> Self
        ensures { result ≡ paced is_kept self }
    {
        let pause = if is_kept { 0 } else { next_pause(self.pause) };
        Pace {
            pause,
            left: pause,
            replaces: one_more(self.replaces),
        }
    }

    /// After a tick at which it wasn't tried.
    pub(crate) fn rested(self) -> Self
        ensures { result ≡ rested self }
    {
        Pace {
            left: self.left.saturating_sub(1),
            ..self
        }
    }

    /// Once what is due at a tick is done.
    pub(crate) fn ticked(self) -> Self
        ensures { result ≡ ticked self }
    {
        Pace {
            replaces: 0,
            ..self
        }
    }
}
