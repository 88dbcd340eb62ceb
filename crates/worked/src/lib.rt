//! Numbers that were worked out by hand from the rules, as one claim: each is what the definitions give.
#![tactic(auto)]

ghost use Rattle.worked.specs.Examples.{WorkedExamples};

/// Sizes, block numbers, ranks, delays, quorums, likeness and whole pages come out of the definitions as they were worked out by hand.
#[tactic(auto, using(crate::proofs::Computed::worked_examples))]
pub fn worked_examples() -> u8
    ensures { WorkedExamples }
{
    0
}
