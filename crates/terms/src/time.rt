// Seconds, as servers give them, and moments in milliseconds since a session began.
ghost use Rattle.std.specs.Prelude.{◌≡◌, ◌+◌, ◌^◌, ◌≤◌};
ghost use Rattle.terms.specs.Times.{milliseconds, later};

#[derive(Clone, Copy, Debug, PartialEq, Eq, PartialOrd, Ord)]
pub struct Seconds(pub u32);

#[derive(Clone, Copy, Debug, PartialEq, Eq, PartialOrd, Ord)]
pub struct Moment(pub u64);

impl Seconds {
    // The one place where seconds become milliseconds.
    pub fn milliseconds(self) -> u64
        ensures value { result ≡ milliseconds self }
        ensures bound { result ≤ 4294967295000 }
    {
        u64::from(self.0) * 1000
    }
}

impl Moment {
    // The moment when the wait has passed; no sum wraps, and up to 2^53 none is cut.
    pub fn after(self, wait: Seconds) -> Moment
        ensures value { result ≡ later self wait }
        ensures exact { self.0 ≤ 2 ^ 53 → result.0 ≡ self.0 + milliseconds wait }
    {
        Moment(self.0.saturating_add(wait.milliseconds()))
    }
}
