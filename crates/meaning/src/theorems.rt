//! What holds of every program, at every stage, in whatever order its moves are made.

ghost use Rattle.meaning.specs.Promise.{Begins, NeverStuck, Alone, LinkedTold, LinksBoth, TwoVersions, NoneAhead, CanStays, NewlyAble, ClockGoes, QuietMeans, FewNumbers, NamesLive};

/// A text that is a program begins.
pub fn begins()
    ensures { Begins }
{}

/// In no order of moves does a program come to where nothing is meant.
pub fn never_stuck()
    ensures { NeverStuck }
{}

/// A turn leaves another worker as it is, but for at most one message and links, unless it swapped a module.
pub fn alone()
    ensures { Alone }
{}

/// Whoever is linked to a worker that ends is told its very reason, behind all signals that were there.
pub fn linked_told()
    ensures { LinkedTold }
{}

/// Of two workers, one is linked to the other as the other to it.
pub fn links_both()
    ensures { LinksBoth }
{}

/// Of each module at most the current version and the one before it are at work.
pub fn two_versions()
    ensures { TwoVersions }
{}

/// No code is at work in a version ahead of the current one.
pub fn none_ahead()
    ensures { NoneAhead }
{}

/// Who can take a turn still can after any move but its own, or is no more.
pub fn can_stays()
    ensures { CanStays }
{}

/// Who can go on after another's turn could before, is new, or got one message.
pub fn newly_able()
    ensures { NewlyAble }
{}

/// Where somebody waits and nobody's time has come, the clock can go on.
pub fn clock_goes()
    ensures { ClockGoes }
{}

/// A system is quiet exactly when no move can be made.
pub fn quiet_means()
    ensures { QuietMeans }
{}

/// The next worker's number is at most one more than the moves made.
pub fn few_numbers()
    ensures { FewNumbers }
{}

/// A name means somebody who is there.
pub fn names_live()
    ensures { NamesLive }
{}
