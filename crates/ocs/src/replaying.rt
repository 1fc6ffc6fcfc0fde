//! Lines of a file that are answered over what a database holds.

ghost use Rattle.std.specs.Prelude.{◌≡◌, IfErr, IfOk, IfSome, None, OnErr, OnOk};
ghost use Rattle.operations.specs.Printed.{IsEnded};
ghost use Rattle.operations.specs.LinesServed.{AnswersLines, BeginsLines, TellsLines};
ghost use Rattle.sqlite.specs.Files.{file_state};
ghost use Rattle.sqlite.specs.State.{HasCleanDisk};
ghost use Rattle.sqlite_wal.specs.Files.{image_at};
ghost use Rattle.sql_keeper.specs.Inside.{clean_in, tables_in};
ghost use Rattle.sql_keeper.specs.Stops.{honest_in};
ghost use Rattle.service.specs.Over.{Comes};
ghost use Rattle.ocs.specs.Ends.{BeginsLinesOf, PrintsLines};
ghost use Rattle.ocs.specs.Faults.{IsReplayFault};
ghost use Rattle.ocs.specs.Replayed.{IsReplayDone};
ghost use Rattle.ocs.specs.Told.{IfLines};
ghost use Rattle.operations.specs.LinesFaults.{AreUnread, IsReachedByLines};

use crate::fault::ProgramFault;
use keepers::Keeper;
use operations::{LinesFault, Status, lines};
use operator::ReplayWords;
use service::{DatabaseFiles, Office, open_file, open_office};
use shelves::TariffShelf;
use sql_keeper::SqlKeeper;
use sqlite::Alter;
use sqlite_disk::{Start, Wary};
use std::alloc::Global;
use std::fs::Files;
use std::io::{BufReader, Read, Write};
use texts::StreamFault;

/// Answers the lines of a file. It is opened before the database is.
pub(crate) fn answer_replay<F: Files, O: Write>(
    rt: &HostRuntime,
    files: &F,
    replay: &ReplayWords,
    output: &mut O,
) -> Result<Status, ProgramFault>
    ensures ended { IfOk result (IsEnded ⊥) }
    ensures printed { OnOk result
        (PrintsLines F.File.remaining (O.contents output.old) (O.contents output.new)) }
    ensures begun { OnErr result
        (BeginsLinesOf F.File.remaining (O.contents output.old) (O.contents output.new)) }
    ensures reached { IfErr result IsReplayFault }
    ensures unwritten { IfErr result (λ fault. IfLines fault AreUnread → output.new ≡ output.old) }
{
    let file = open_file(files, replay.file.as_str())?;
    replay_over(rt, replay, file, output, Wary)?;
    Ok(Status::Done)
}

/// Answers the lines of a reader over the database of the words, whatever its files held (`start`),
/// and answers its keeper.
// rule: database-words.opened-in
fn replay_over<S: Start, R: Read + Drop, O: Write>(
    rt: &HostRuntime,
    replay: &ReplayWords,
    reader: R,
    output: &mut O,
    start: S,
) -> Result<SqlKeeper<DatabaseFiles<S>>, ProgramFault>
    ensures answered { IfOk result (λ keeper. HasCleanDisk (file_state keeper.connection) →
        IfSome (R.remaining reader) (λ stream. Comes (image_at S.Start) keeper
        (IsReplayDone stream (O.contents output.old) (O.contents output.new)))) }
    ensures told { OnOk result (IfSome (R.remaining reader)
        (TellsLines (O.contents output.old) (O.contents output.new))) }
    ensures begun { OnErr result (IfSome (R.remaining reader)
        (BeginsLines (O.contents output.old) (O.contents output.new))) }
    ensures reached { IfErr result IsReplayFault }
    ensures unwritten { IfErr result (λ fault. IfLines fault AreUnread → output.new ≡ output.old) }
{
    let office = open_office(rt, &replay.database, start)?;
    answer_over(rt.alloc(), office, reader, output)
}

/// Answers the lines of a reader over an office, and answers its keeper.
fn answer_over<S: Alter + Drop, R: Read + Drop, O: Write>(
    alloc: Global,
    office: Office<S>,
    reader: R,
    output: &mut O,
) -> Result<SqlKeeper<S>, ProgramFault>
    ensures done { IfOk result (λ keeper. clean_in S.Store office.keeper →
        honest_in S.Store keeper → IfSome (R.remaining reader) (λ stream.
        IsReplayDone stream (O.contents output.old) (O.contents output.new) office.shelf
        (tables_in S.Store office.keeper) (tables_in S.Store keeper))) }
    ensures honesty { IfOk result (λ keeper. honest_in S.Store keeper →
        honest_in S.Store office.keeper) }
    ensures told { OnOk result (IfSome (R.remaining reader)
        (TellsLines (O.contents output.old) (O.contents output.new))) }
    ensures begun { OnErr result (IfSome (R.remaining reader)
        (BeginsLines (O.contents output.old) (O.contents output.new))) }
    ensures reached { IfErr result IsReplayFault }
    ensures unwritten { IfErr result (λ fault. IfLines fault AreUnread → output.new ≡ output.old) }
{
    let Office { mut keeper, shelf } = office;
    answer_reader(alloc, &mut keeper, &shelf, reader, output)?;
    Ok(keeper)
}

/// Answers the lines of a reader over a keeper.
fn answer_reader<K: Keeper, R: Read + Drop, O: Write>(
    alloc: Global,
    keeper: &mut K,
    shelf: &TariffShelf,
    reader: R,
    output: &mut O,
) -> Result<(), ProgramFault>
    ensures done { (K.seen keeper.old).clean → (K.seen keeper.new).honest → OnOk result
        (IfSome (R.remaining reader) (λ stream. IsReplayDone stream
        (O.contents output.old) (O.contents output.new) shelf.now
        (K.seen keeper.old).tables (K.seen keeper.new).tables)) }
    ensures honesty { (K.seen keeper.new).honest → (K.seen keeper.old).honest }
    ensures told { OnOk result (IfSome (R.remaining reader)
        (TellsLines (O.contents output.old) (O.contents output.new))) }
    ensures begun { OnErr result (IfSome (R.remaining reader)
        (BeginsLines (O.contents output.old) (O.contents output.new))) }
    ensures reached { IfErr result IsReplayFault }
    ensures unwritten { IfErr result (λ fault. IfLines fault AreUnread → output.new ≡ output.old) }
{
    let Ok(mut buffered) = BufReader::new(alloc, reader) else {
        return Err(ProgramFault::Stream(StreamFault::Memory));
    };
    answer_requests(alloc, keeper, shelf, &mut buffered, output)?;
    Ok(())
}

/// Answers the lines of a reader over a keeper, which may fail.
#[tactic(auto, using(operations::proofs::request_lines::Reached::reached_over, operations::proofs::request_lines::Reached::where_unread))]
fn answer_requests<K: Keeper, R: Read, O: Write>(
    alloc: Global,
    keeper: &mut K,
    shelf: &TariffShelf,
    reader: &mut R,
    output: &mut O,
) -> Result<(), LinesFault>
    ensures reached { IfErr result (IsReachedByLines (Unit {0})) }
    ensures unwritten { IfErr result (λ fault. AreUnread fault → output.new ≡ output.old) }
    ensures unread { IfErr result (λ fault. AreUnread fault → keeper.new ≡ keeper.old) }
    ensures answers { AnswersLines shelf.now None (R.remaining reader.old)
        (O.contents output.old) (O.contents output.new) (K.seen keeper.old) (K.seen keeper.new)
        result }
    ensures told { OnOk result (IfSome (R.remaining reader.old)
        (TellsLines (O.contents output.old) (O.contents output.new))) }
    ensures begun { OnErr result (IfSome (R.remaining reader.old)
        (BeginsLines (O.contents output.old) (O.contents output.new))) }
    ensures honesty { (K.seen keeper.new).honest → (K.seen keeper.old).honest }
    ensures stands { (K.seen keeper.new).honest → (K.seen keeper.old).clean →
        OnOk result (K.seen keeper.new).clean }
{
    lines(alloc, keeper, shelf, None, reader, output)
}
