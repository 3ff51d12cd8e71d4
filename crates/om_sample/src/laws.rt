//! The laws that callers may rely on. Each is the contract of an empty function.
ghost use Rattle.om_sample.specs.Events.{SamplesBalance};
ghost use Rattle.om_sample.specs.Laws.{SampleHasOneFlow, SampleProcessFits};
ghost use Rattle.om_sample.specs.Model.{SampleModelIsAccepted};
ghost use Rattle.om_sample.specs.Sums.{SamplesByCode};

use om_ring::Ring;

/// The momenta of each event of a sample add up to zero.
pub fn samples_balance<R: Ring>(ring: &R)
    ensures { SamplesBalance (R.ops ring.now) }
{
    let _ring = ring;
}

/// The model of a sample breaks no rule, whatever the ring.
pub fn sample_model_is_accepted<R: Ring>(ring: &R)
    ensures { SampleModelIsAccepted (R.ops ring.now) }
{
    let _ring = ring;
}

/// What the events of a sample sum up to by a code is what they sum up to by the diagrams, where the code gives the same as these for each event.
pub fn samples_by_code<R: Ring>(ring: &R)
    ensures { SamplesByCode (R.ops ring.now) }
{
    let _ring = ring;
}

/// The process of a sample is one over its model, with 3 to 12 legs.
pub fn sample_process_fits()
    ensures { SampleProcessFits }
{}

/// The diagrams over the model of a sample have one flow at most.
pub fn sample_has_one_flow()
    ensures { SampleHasOneFlow }
{}
