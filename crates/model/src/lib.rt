//! The rules of a hall and the law over every complete journal of a lawful plan. The definitions are in specs/, the proofs in proofs/.
#![tactic(auto)]

ghost use Rattle.model.specs.Setup.{Plan, Lawful};
ghost use Rattle.model.specs.Promises.{Promises};
ghost use Rattle.model.specs.Runs.{ClosedRuns};
ghost use Rattle.model.specs.Misreadings.{Misreadings};

/// Of every lawful plan, in every complete journal: catalogues agree, no entry stands twice, a final block is alone in its round, no hall is
/// stuck, what was posted can be delivered, the state's seals and posted messages are those of the journal's lines, the refusal of an echo for
/// a better block names the first of them, and only so many rules of a seat are ever accepted, so that runs end.
pub fn law_stands() -> u8
    ensures { (p : Plan) → Lawful p → Promises p }
{
    0
}

/// The rules and the promises speak of something: a lawful plan of four seats, one of them corrupt, and complete journals of it with all nine
/// sorts of call accepted, a commit of one block and of two, a disqualified rank, and split echoes after which all still agree.
pub fn rules_have_runs() -> u8
    ensures { ClosedRuns }
{
    0
}

/// The rules are told apart from three misreadings: a quorum of 2t + 1, a finalization share sealed although another block is noted, and the
/// second block of a rank not passed on. The first two break a promise in a run that is given, the third broadcasts less than the rule.
pub fn misreadings_differ() -> u8
    ensures { Misreadings }
{
    0
}
