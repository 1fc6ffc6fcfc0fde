//! The words of the program, a line each, and what they say.

use crate::tests::tables::{Told, try_told, word};
use commands::{Allowance, Credit};
use operator::{
    BookWords, ClockWords, ImportWords, OfficeCommand, OfficeWords, OnceWords, ProgramWords,
    ServeWords, StatementWords, WordsFault, program_words,
};
use std::alloc::{AllocError, Global};
use std::process::Abort;
use units::Moment;

fn seconds(at: Option<Moment>) -> Option<u64> {
    at.map(|moment| moment.seconds())
}

fn crediting(alloc: Global, credit: &Credit) -> Result<String, AllocError> {
    format!(in alloc;
        "credit {} {} {} {} {:?}",
        credit.account.as_str(),
        credit.amount.micros(),
        credit.reference.as_str(),
        credit.end().seconds(),
        credit.scope
    )
}

fn allowing(alloc: Global, allowance: &Allowance) -> Result<String, AllocError> {
    format!(in alloc;
        "allow {} {} {} {} {}",
        allowance.account.as_str(),
        allowance.blocks.blocks().0,
        allowance.reference.as_str(),
        allowance.end().seconds(),
        allowance.scope
    )
}

fn office(alloc: Global, command: &OfficeCommand) -> Result<String, AllocError> {
    match command {
        OfficeCommand::Open(account) => format!(in alloc; "open {}", account.as_str()),
        OfficeCommand::Bar(account) => format!(in alloc; "bar {}", account.as_str()),
        OfficeCommand::Unbar(account) => format!(in alloc; "unbar {}", account.as_str()),
        OfficeCommand::Credit(credit) => crediting(alloc, credit),
        OfficeCommand::Allow(allowance) => allowing(alloc, allowance),
        OfficeCommand::Sweep => format!(in alloc; "sweep"),
    }
}

fn adding(alloc: Global, book: &BookWords) -> Result<String, AllocError> {
    format!(in alloc;
        "book {} {} {}",
        book.database.as_str(),
        book.file.as_str(),
        book.from.seconds()
    )
}

fn serving(alloc: Global, serve: &ServeWords) -> Result<String, AllocError> {
    format!(in alloc;
        "serve {} {} {} {:?}",
        serve.database.as_str(),
        serve.port,
        serve.connections,
        seconds(serve.at)
    )
}

fn stating(alloc: Global, statement: &StatementWords) -> Result<String, AllocError> {
    format!(in alloc;
        "statement {} {} {} {} {:?}",
        statement.database.as_str(),
        statement.account.as_str(),
        statement.month.number(),
        statement.csv,
        seconds(statement.at)
    )
}

fn looking(alloc: Global, clock: &ClockWords) -> Result<String, AllocError> {
    let mut text = format!(in alloc; "clock {}", clock.database.as_str())?;
    for moment in clock.moments.as_slice() {
        let more = format!(in alloc; " {}", moment.seconds())?;
        text.push_str(more.as_str())?;
    }
    Ok(text)
}

fn playing(alloc: Global, once: &OnceWords) -> Result<String, AllocError> {
    format!(in alloc;
        "once {} {} {}",
        once.credit.micros(),
        once.price,
        once.block
    )
}

fn importing(alloc: Global, import: &ImportWords) -> Result<String, AllocError> {
    format!(in alloc;
        "import {} {} {:?}",
        import.database.as_str(),
        import.file.as_str(),
        seconds(import.at)
    )
}

fn ordering(rt: &impl Abort, alloc: Global, words: &OfficeWords) -> Result<String, AllocError> {
    let command = office(alloc, &words.command).expect(rt, "memory");
    format!(in alloc;
        "{} in {} {:?}",
        command.as_str(),
        words.database.as_str(),
        seconds(words.at)
    )
}

/// What words say, as a text.
fn said(rt: &impl Abort, alloc: Global, words: &ProgramWords) -> Result<String, AllocError> {
    match words {
        ProgramWords::Once(once) => playing(alloc, once),
        ProgramWords::Init(init) => format!(in alloc;
            "init {} {}",
            init.database.as_str(),
            init.book.as_str()
        ),
        ProgramWords::Migrate(migrate) => format!(in alloc;
            "migrate {}",
            migrate.database.as_str()
        ),
        ProgramWords::Book(book) => adding(alloc, book),
        ProgramWords::Serve(serve) => serving(alloc, serve),
        ProgramWords::Import(import) => importing(alloc, import),
        ProgramWords::Office(words) => ordering(rt, alloc, words),
        ProgramWords::Statement(statement) => stating(alloc, statement),
        ProgramWords::Clock(clock) => looking(alloc, clock),
        ProgramWords::Replay(replay) => format!(in alloc;
            "replay {} {}",
            replay.database.as_str(),
            replay.file.as_str()
        ),
    }
}

/// How words aren't read.
fn unread(rt: &impl Abort, alloc: Global, fault: &WordsFault) -> String {
    match fault {
        WordsFault::Unread(error) => {
            let code = error.exit_code();
            format!(in alloc; "unread {code}").expect(rt, "memory")
        }
        WordsFault::Invalid(argument) => word(rt, alloc, argument.line()),
        WordsFault::Memory => word(rt, alloc, "memory"),
    }
}

/// What words say, or how they aren't read.
fn words_told(rt: &impl Abort, alloc: Global, words: &[&str]) -> String {
    match program_words(alloc, words) {
        Ok(words) => said(rt, alloc, &words).expect(rt, "memory"),
        Err(fault) => unread(rt, alloc, &fault),
    }
}

/// What a line of words says, or how it isn't read.
pub(crate) fn told(rt: &impl Abort, alloc: Global, line: &str) -> String {
    let words: Vec<&str> = line.split(' ').collect(alloc).expect(rt, "memory");
    words_told(rt, alloc, words.as_slice())
}

/// A line's words and what they say: each command with its options, each of them missing, doubled,
/// and at and past its bounds.
const LINES: &str = "ocs once --credit 1000000 --price 0 --block 60 -> once 1000000 0 60
ocs once --block=60 --price=1000000000 --credit=1 -> once 1 1000000000 60
ocs once --credit 0 --price 0 --block 60 -> ocs: --credit takes 1 to 1000000000000000
ocs once --credit 1 --price 0 -> unread 2
ocs init db book -> init db book
ocs init db -> unread 2
ocs init db book more -> unread 2
ocs init  book -> ocs: DB takes a path of 1 byte or more
ocs migrate db -> migrate db
ocs migrate -> unread 2
ocs migrate db --at 1 -> unread 2
ocs migrate  -> ocs: DB takes a path of 1 byte or more
ocs book db file --from 1767657600 -> book db file 1767657600
ocs book --from=4102444799 db file -> book db file 4102444799
ocs book db file --from 0 -> book db file 0
ocs book db file --from 4102444800 -> ocs: --from takes 0 to 4102444799
ocs book db file -> unread 2
ocs book db --from 1 -> unread 2
ocs book db file --from 1 --at 1 -> unread 2
ocs serve db --port 65535 --connections 1000000 --at 0 -> serve db 65535 1000000 Some(0)
ocs serve --port 1 --connections 1 db -> serve db 1 1 None
ocs serve db --port 65536 --connections 1 -> ocs: --port takes 1 to 65535
ocs serve db --port 0 --connections 1 -> ocs: --port takes 1 to 65535
ocs serve db --port 1 --connections 1000001 -> ocs: --connections takes 1 to 1000000
ocs serve db --port 1 -> unread 2
ocs import db file --at 4102444799 -> import db file Some(4102444799)
ocs import db file --at 4102444800 -> ocs: --at takes 0 to 4102444799
ocs open db 49151 --at 1 -> open 49151 in db Some(1)
ocs --at 1 open db 49151 -> unread 2
ocs open --at 1 db 49151 -> open 49151 in db Some(1)
ocs open db 49151 --at 1 --at 2 -> unread 2
ocs open db 49151 --at -> unread 2
ocs open db 1234567890123456 -> ocs: ACCOUNT takes 1 to 15 digits
ocs bar db 0 -> bar 0 in db None
ocs unbar db 0 -> unbar 0 in db None
ocs sweep db --at 0000000000000001 -> sweep in db Some(1)
ocs sweep db --at 00000000000000001 -> ocs: --at takes 0 to 4102444799
ocs sweep db --at +1 -> ocs: --at takes 0 to 4102444799
ocs credit db 0 1000000000000000 r1 -> credit 0 1000000000000000 r1 4102444800 None in db None
ocs credit db 0 1 r1 --until 1 --scope 4294967295 -> credit 0 1 r1 1 Some(4294967295) in db None
ocs credit --scope 10 db 0 1 r1 -> credit 0 1 r1 4102444800 Some(10) in db None
ocs credit db 0 1 -x -> unread 2
ocs credit db 0 1 -- -x -> credit 0 1 -x 4102444800 None in db None
ocs credit --scope 10 db 0 1 -- --at -> credit 0 1 --at 4102444800 Some(10) in db None
ocs init -- -db -book -> init -db -book
ocs credit db 0 0 r1 -> ocs: AMOUNT takes 1 to 1000000000000000
ocs credit db 0 1 r1 --until 0 -> ocs: --until takes 1 to 4102444800
ocs credit db 0 1 r1 --scope 4294967296 -> ocs: --scope takes 0 to 4294967295
ocs allow db 0 1000000000 a1 --scope 4294967295 -> allow 0 1000000000 a1 4102444800 4294967295 in db None
ocs allow db 0 1 a1 --until 1 --scope 0 --at 5 -> allow 0 1 a1 1 0 in db Some(5)
ocs allow --scope=10 db 0 1 a1 --until 4102444800 -> allow 0 1 a1 4102444800 10 in db None
ocs allow db 0 1 a1 -> unread 2
ocs allow db 0 1 --scope 10 -> unread 2
ocs allow db 0 0 a1 --scope 10 -> ocs: BLOCKS takes 1 to 1000000000
ocs allow db 0 1000000001 a1 --scope 10 -> ocs: BLOCKS takes 1 to 1000000000
ocs allow db 0 1 a1 --scope 4294967296 -> ocs: --scope takes 0 to 4294967295
ocs allow db 0 1 a1 --scope 10 --until 0 -> ocs: --until takes 1 to 4102444800
ocs statement db 49151 202601 -> statement db 49151 202601 false None
ocs statement --csv db 49151 202612 --at 5 -> statement db 49151 202612 true Some(5)
ocs statement db 49151 202613 -> ocs: YYYYMM takes 197001 to 209912
ocs statement db 49151 196912 -> ocs: YYYYMM takes 197001 to 209912
ocs clock db 5 -> clock db 5
ocs clock db 0 4102444799 5 5 -> clock db 0 4102444799 5 5
ocs clock db -> unread 2
ocs clock db 5 --at 5 -> unread 2
ocs clock db 5 4102444800 -> ocs: MOMENT takes 0 to 4102444799
ocs clock db 5 x -> ocs: MOMENT takes 0 to 4102444799
ocs replay db file -> replay db file
ocs replay db file --at 1 -> unread 2
ocs -> unread 2
ocs twice -> unread 2
ocs --help -> unread 0
ocs credit --help -> unread 0
ocs --version -> unread 0";

// rule: words
#[test]
fn each_line_says_its_words(rt: HostRuntime) {
    try_told(&rt, rt.alloc(), Told::Words, LINES);
}
