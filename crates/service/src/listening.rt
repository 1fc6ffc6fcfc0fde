//! A port of 127.0.0.1, over the database of the words.

ghost use Rattle.std.specs.Prelude.{◌≡◌, IfErr, IfOk, OnErr, OnOk, string_bytes};
ghost use Rattle.std.specs.Io.KnownBytes.{Appends};
ghost use Rattle.sqlite_wal.specs.Files.{image_at};
ghost use Rattle.charging.specs.Continued.{Continues};
ghost use Rattle.sql_keeper.specs.Inside.{clean_in, tables_in};
ghost use Rattle.operations.specs.Written.{WritesBeginning};
ghost use Rattle.service.specs.ServingTold.{IsTellFault};
ghost use Rattle.service.specs.ServingTold.{Listens, ListensOver};
ghost use Rattle.service.specs.ServingTold.{listening_line};

use crate::database_files::DatabaseFiles;
use crate::fault::{DatabaseFault, telling_fault};
use crate::office_clock::OfficeClock;
use crate::opening::{Office, open_office};
use crate::serving::{Connections, serve_connections};
use operator::ServeWords;
use sql_keeper::SqlKeeper;
use sqlite::Alter;
use sqlite_disk::{Start, Wary};
use std::alloc::{AllocError, Global};
use std::io::Write;
use std::net::{Ipv4Addr, TcpListener};
use texts::{StreamFault, write_whole};

/// Serves the connections of the words over their database, one after another, and answers how many
/// of them ended in a fault. Once the port of 127.0.0.1 is listened to, `output` gets a line that
/// says so; each connection's fault is a line on `errors`, and the next one is served. A torn
/// write may have left any bytes of the database (`Wary`).
///
/// # Errors
/// In this order, each before the first connection: as `open_office`; `Net` where the port can't be
/// listened to; `Memory` or `File` where the line that says so isn't written.
// rule: port.listening-line
pub fn serve_database<O: Write, E: Write>(
    rt: &HostRuntime,
    words: &ServeWords,
    output: &mut O,
    errors: &mut E,
) -> Result<u32, DatabaseFault>
    ensures { Listens O.contents E.contents words.now (λ failed. failed) output.old output.new
        errors.old errors.new result }
{
    let (failed, _keeper) = serve_over(rt, words, output, errors, Wary)?;
    Ok(failed)
}

/// Serves the connections of the words as `serve_database`, whatever the database's files held
/// (`start`), and answers its keeper too.
///
/// # Errors
/// As `serve_database`.
// rule: database-words.opened-in
pub fn serve_over<S: Start, O: Write, E: Write>(
    rt: &HostRuntime,
    words: &ServeWords,
    output: &mut O,
    errors: &mut E,
    start: S,
) -> Result<(u32, SqlKeeper<DatabaseFiles<S>>), DatabaseFault>
    ensures { ListensOver (image_at S.Start) O.contents E.contents words.now output.old output.new
        errors.old errors.new result }
{
    let office = open_office(rt, &words.database, start)?;
    serve_office(rt, office, words, output, errors)
}

/// Serves the connections of the words over an office, and answers its keeper too.
fn serve_office<S: Alter + Drop, O: Write, E: Write>(
    rt: &HostRuntime,
    office: Office<S>,
    words: &ServeWords,
    output: &mut O,
    errors: &mut E,
) -> Result<(u32, SqlKeeper<S>), DatabaseFault>
    ensures continued { IfOk result (λ r. clean_in S.Store r.1 →
        Continues office.shelf (tables_in S.Store office.keeper) (tables_in S.Store r.1)) }
    ensures cleanness { IfOk result (λ r. clean_in S.Store r.1 →
        clean_in S.Store office.keeper) }
    ensures listens { Listens O.contents E.contents words.now (λ r. r.0) output.old output.new
        errors.old errors.new result }
{
    let Office { mut keeper, shelf } = office;
    let Ok(listener) = TcpListener::bind(rt, (Ipv4Addr::LOCALHOST, words.port)) else {
        return Err(DatabaseFault::Net);
    };
    tell_listening(rt.alloc(), words.port, output)?;
    let mut clock = OfficeClock::new(rt, words.at);
    let connections = Connections {
        listener: &listener,
        count: words.connections,
    };
    let failed = serve_connections(rt, connections, &mut keeper, &shelf, &mut clock, errors);
    Ok((failed, keeper))
}

/// The line that says that a port is listened to, with its line feed.
fn listening_line(alloc: Global, port: u16) -> Result<String, AllocError>
    ensures { IfOk result (λ line. string_bytes line ≡ listening_line port) }
{
    format!(in alloc; "listening 127.0.0.1:{port}\n")
}

/// Prints that a port is listened to.
fn tell_listening<O: Write>(alloc: Global, port: u16, output: &mut O) -> Result<(), DatabaseFault>
    ensures ok { OnOk result (Appends (O.contents output.old) (O.contents output.new)
        (listening_line port)) }
    ensures err { OnErr result (WritesBeginning (O.contents output.old) (O.contents output.new)
        (listening_line port)) }
    ensures fault { IfErr result IsTellFault }
{
    write_listening(alloc, port, output).map_err(telling_fault)
}

/// Writes that a port is listened to.
fn write_listening<O: Write>(alloc: Global, port: u16, output: &mut O) -> Result<(), StreamFault>
    ensures ok { OnOk result (Appends (O.contents output.old) (O.contents output.new)
        (listening_line port)) }
    ensures err { OnErr result (WritesBeginning (O.contents output.old) (O.contents output.new)
        (listening_line port)) }
{
    let line = listening_line(alloc, port)?;
    write_whole(output, line.as_bytes())?;
    output.flush().map_err(|_| StreamFault::Write)
}
