ghost use Rattle.supply.specs.Samples.{SamplesStand};

// One pair worked out: which of its splits are lawful, and its supplies, with a share and a holdoff over it.
#[tactic(auto, using(crate::proofs::SampleCases::samples_stand_lem))]
pub fn samples_stand()
    ensures { SamplesStand }
{}
