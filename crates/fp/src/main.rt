#![tactic(auto)]

use demand::fp::Fp;
use sizing::program::run;

fn main(rt: HostRuntime) -> anyhow::Result<()> {
    run(&rt, Fp)
}
