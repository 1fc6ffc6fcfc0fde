//! Laws for callers and writers of keepers.

ghost use Rattle.keepers.specs.Steps.{IsLoadStep, IsCommitStep, IsKnownStep, IsNewStep};
ghost use Rattle.keepers.specs.Steps.{IsBucketsTold, IsListTold};
ghost use Rattle.keepers.specs.Differing.{IsNamedOver};

/// What is loaded and what was left are together the ledger's rows, and so they are after a commit;
/// a session has a row where it has a record; the rows of an account are those of its ledger.
// rule: database-loads.load-step
pub fn taken_and_left()
    ensures load { IsLoadStep }
    ensures commit { IsCommitStep }
    ensures known { IsKnownStep }
    ensures new { IsNewStep }
    ensures buckets { IsBucketsTold }
    ensures lists { IsListTold }
{}

/// A change that names only the rows that differ from those loaded leaves what one leaves that
/// names all.
// rule: database-writes
pub fn only_what_differs()
    ensures { IsNamedOver }
{}
