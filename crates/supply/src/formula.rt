use crate::bare::Bare;
use processor::drive::Pair;

// A bare processor, which answers by the closed formula of the least window sum.
#[derive(Clone, Copy, PartialEq, Eq, Debug)]
pub struct Formula;

impl Bare for Formula {
    #[tactic(auto, using(crate::specs::Supplies::frame_is_cycles))]
    fn frame_cycles(&self, pair: &Pair) -> u64 {
        let low = u64::from(pair.low.speed) * u64::from(pair.low_time - pair.down);
        let high = u64::from(pair.high.speed) * u64::from(pair.high_time - pair.up);
        low + high
    }

    // A switch may come first, then the low mode runs, then another switch is waited for, and only what is longer than
    // that has the high mode in it.
    #[tactic(auto, using(crate::specs::Supplies::least_is_piece, std::proofs::lemmas::Bool::Decides::nat_tests), unfolding(crate::specs::Formulas::piece))]
    fn rest_cycles(&self, pair: &Pair, rest: u32) -> u64 {
        let speed = u64::from(pair.low.speed);
        let longer = pair.down.max(pair.up);
        let low_run = pair.low_time - pair.down;
        if rest < longer {
            0
        } else if rest < longer + low_run {
            speed * u64::from(rest - longer)
        } else if rest < pair.low_time + pair.up {
            speed * u64::from(low_run)
        } else {
            let beyond = rest - (pair.low_time + pair.up);
            speed * u64::from(low_run) + u64::from(pair.high.speed) * u64::from(beyond)
        }
    }
}
