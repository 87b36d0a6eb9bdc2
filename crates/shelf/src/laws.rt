//! Laws of a shelf over histories.
ghost use Rattle.shelf.specs.Laws.{FreshKeeps, GrantedKeeps, WaitingKeeps, NotedKeeps, RefusedKeeps, PromisedKeeps, NoKeeps, ReservedKeeps, CommitCloses, AbortCloses, EndedKeeps, ResumedKeeps, CommitLeaves, AbortLeaves, OffersLater, ReadsLatest, MayEnd, RowsLeft};

/// It has what the history gives: at first, after an access, after a vote, after an end, and if a call finds no memory.
fn keeps_rows()
    ensures fresh { FreshKeeps }
    ensures granted { GrantedKeeps }
    ensures waiting { WaitingKeeps }
    ensures noted { NotedKeeps }
    ensures refused { RefusedKeeps }
    ensures promised { PromisedKeeps }
    ensures no { NoKeeps }
    ensures reserved { ReservedKeeps }
    ensures commit { CommitCloses }
    ensures abort { AbortCloses }
    ensures ended { EndedKeeps }
    ensures resumed { ResumedKeeps }
{}

/// Its rows are those of the history: of a key that is read, those that an end writes, and all of them after commits and aborts.
fn has_rows()
    ensures commit { CommitLeaves }
    ensures abort { AbortLeaves }
    ensures offer { OffersLater }
    ensures read { ReadsLatest }
    ensures end { MayEnd }
    ensures left { RowsLeft }
{}
