//! Laws of what a database holds and what a stop leaves.

ghost use Rattle.std.specs.Prelude.{ℕ, List};
ghost use Rattle.sqlite.specs.Held.{Held};
ghost use Rattle.sql_tables.specs.declared.fault.OpenFault.{OpenFault};
ghost use Rattle.sql_keeper.specs.Again.{AreLeftAgain, AreLeftRuledAgain, AreOpenedAgain};
ghost use Rattle.sql_keeper.specs.Again.{AreShelvesOne, AreStoppedWhole, IsFoundAgain};
ghost use Rattle.sql_keeper.specs.Causes.{AreCausesApart};
ghost use Rattle.sql_keeper.specs.Inside.{KeeperState};
ghost use Rattle.sql_keeper.specs.Laws.{AreChangesRead, AreEachSettled, AreNewTablesEmpty};
ghost use Rattle.sql_keeper.specs.Laws.{AreSweepsRead};
ghost use Rattle.sql_keeper.specs.LiveGroups.{AreOpenGroupsLoaded};
ghost use Rattle.sql_keeper.specs.LiveRows.{AreLiveRowsLoaded};
ghost use Rattle.sql_keeper.specs.RuledOpening.{AreRowsApart};
ghost use Rattle.sql_keeper.specs.Stops.{IsAtRest};

use sqlite::Alter;

/// The rows that a change writes read as the change.
// rule: database-writes.tables-of
#[tactic(auto, using(crate::proofs::commits::Changed::changes_read))]
pub fn changes_are_read()
    ensures { AreChangesRead }
{}

/// Sessions that a change names are settled where each of them is by itself; and only there, if
/// each comes once.
// rule: database-writes.writable
#[tactic(auto, using(crate::proofs::commits::Changed::each_settled))]
pub fn sessions_are_each_settled()
    ensures { AreEachSettled }
{}

/// The rows that a sweep writes read as the sweep.
// rule: database-sweep
#[tactic(auto, using(crate::proofs::sweeps::Swept::sweeps_read))]
pub fn sweeps_are_read()
    ensures { AreSweepsRead }
{}

/// Tables without rows hold nothing.
// rule: database-made.new-tables-empty
pub fn new_tables_are_empty()
    ensures { AreNewTablesEmpty }
{}

/// What the open sessions have of rating groups is what is loaded of an account's rows.
// rule: database-loads.told-groups
#[tactic(auto, using(crate::proofs::loads::LiveGroups::open_loaded))]
pub fn open_groups_are_loaded()
    ensures { AreOpenGroupsLoaded }
{}

/// What is read of an account's rows that may still change is what is loaded of them.
// rule: database-loads.live-account
#[tactic(auto, using(crate::proofs::loads::LiveRows::live_loaded))]
pub fn live_rows_are_loaded()
    ensures { AreLiveRowsLoaded }
{}

/// What a commit, an addition or a sweep makes of tables that are left is left again.
// rule: database-opened.left
#[tactic(auto, using(crate::proofs::shelf::Again::left_again))]
pub fn tables_are_left_again()
    ensures { AreLeftAgain }
{}

/// The rows of a database are those of one shelf at most, so that an open finds the shelf that was
/// answered before.
// rule: database-opened.shelves-one
pub fn shelves_are_one()
    ensures { AreShelvesOne }
{}

/// A database has one fault at most for which it isn't opened.
// rule: database-opened.fault
#[tactic(auto, using(crate::proofs::openings::Causes::causes_apart))]
pub fn causes_are_apart()
    ensures { AreCausesApart }
{}

/// A database that has one is refused for no row.
// rule: rows-ruled.opened
#[tactic(auto, using(crate::proofs::openings::RuledOpening::rows_apart))]
pub fn rows_are_apart()
    ensures { AreRowsApart }
{}

/// The rows that a new book has, and those that a commit, an addition, a sweep or a book more makes
/// of rows in their rules, are in their rules.
// rule: stop-ruled
#[tactic(auto, using(crate::proofs::openings::Held::left_ruled_again))]
pub fn ruled_tables_are_left_again()
    ensures { AreLeftRuledAgain }
{}

/// Where the connection shows what was left, each row in its rules, no fault is reported but the
/// store's or memory's.
// rule: stop-ruled, database-opened.not-opened
pub fn left_tables_are_found<S: Alter>()
    ensures { (old new : Held S) (text : List ℕ) (fault : OpenFault) →
        IsFoundAgain S.Store old new text fault }
{}

/// What a stop leaves between two calls is what was committed last.
// rule: stop-between
pub fn a_stop_leaves_the_last_commit<S: Alter>()
    ensures { (k : KeeperState S) → IsAtRest S.Store k }
{}

/// What a stop of a keeper leaves at any moment is opened again: with the rows that it left, under
/// the text of the keeper and the books of both; and it is refused for no row.
// rule: stop-opened
pub fn a_stop_is_opened_again<S: Alter, T: Alter>()
    ensures { AreOpenedAgain S.Store T.Store }
{}

/// A command that is stopped at its exit is whole when its database is opened again: its rows are
/// those before it, or with it.
// rule: stop, stop-command
pub fn a_stopped_command_is_whole<S: Alter, T: Alter>()
    ensures { AreStoppedWhole S.Store T.Store }
{}
