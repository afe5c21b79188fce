//! What holds of the scheduler's model, for every program at every stage.

ghost use Rattle.meaning.specs.Rounds.{FairAlways, SchedulerLaws};

/// Every order of moves that the scheduler's model makes is fair, also with any one move more.
pub fn fair_always()
    ensures { FairAlways }
{}

/// The model begins, each of its actions keeps the queue exact, and it soon moves unless all is quiet.
pub fn scheduler_laws()
    ensures { SchedulerLaws }
{}
