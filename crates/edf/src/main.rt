#![tactic(auto)]

use demand::edf::Edf;
use sizing::program::run;

fn main(rt: HostRuntime) -> anyhow::Result<()> {
    run(&rt, Edf)
}
