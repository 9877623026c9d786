ghost use Rattle.std.specs.Prelude.{◌≡◌, ◌+◌, ◌*◌, ◌^◌, ◌<◌, ◌≤◌};
ghost use Rattle.demand.specs.Demand.{jobs};

// Times that come a step apart, from a first one on.
#[derive(Clone, Copy, PartialEq, Eq, Debug)]
pub(crate) struct Times {
    pub(crate) first: u32,
    pub(crate) step: u32,
    ghost later: { 1 ≤ first },
    ghost apart: { 1 ≤ step },
}

impl Times {
    // How many of them come no later than an end.
    pub(crate) fn count(&self, end: u32) -> u32
        ensures value { result ≡ jobs self.now.first self.now.step end }
        ensures bound { result ≤ end }
    {
        if end < self.first {
            return 0;
        }
        (end - self.first) / self.step + 1
    }

    // The one that comes after n others.
    pub(crate) fn nth(&self, n: u32) -> u32
        requires { self.now.first + n * self.now.step < 2 ^ 32 }
        ensures { result ≡ self.now.first + n * self.now.step }
    {
        self.first + n * self.step
    }
}
