//! Statements and exports of a month: writers that fail at each byte, and a source that fails at
//! each row.

use crate::tests::accounts::{FIRST_EVENT, HALF_PAID, ask_all, many_events, moment, shelf};
use crate::tests::broken::Broken;
use crate::tests::trials::{Trial, try_below};
use buckets::{Bucket, BucketKind, Columns};
use identifiers::AccountNumber;
use keepers::{Keeper, MemoryKeeper};
use shelves::TariffShelf;
use statements::{AccountMonth, StatementFault, export, statement};
use std::alloc::Global;
use std::process::Abort;
use texts::Month;
use units::Moment;
use worked_book::Slow;

/// The statement of the account that paid half.
pub(crate) const STATEMENT: &str = "\
ACCOUNT 49151 MONTH 202601 MOMENT 1767607500
    MOMENT      GROUP     BLOCKS               RATED           COLLECTED         UNCOLLECTED
1767607500         10          5              500000              250000              250000
                TOTAL          5              500000              250000              250000
    BUCKET         CREDITED        AVAILABLE         RESERVED          CHARGED          EXPIRED
         1           250000                0                0           250000                0
COLLECTED TO DATE 250000
";

/// The same beside an allowance, of which all was used.
const ALLOWED: &str = "\
ACCOUNT 49151 MONTH 202601 MOMENT 1767607500
    MOMENT      GROUP     BLOCKS               RATED           COLLECTED         UNCOLLECTED
1767607500         10          5              500000              250000              250000
                TOTAL          5              500000              250000              250000
    BUCKET         CREDITED        AVAILABLE         RESERVED          CHARGED          EXPIRED
         1           250000                0                0           250000                0
 ALLOWANCE      GROUP         CREDITED        AVAILABLE         RESERVED          \
CHARGED          EXPIRED
         2         10                3                0                0                \
3                0
COLLECTED TO DATE 250000
COVERED TO DATE 3
";

/// Its export.
const EXPORT: &str = "\
moment,session,group,blocks,rated,collected,uncollected,covered
1767607500,s3,10,5,500000,250000,250000,0
";

/// The header of an export, and the records of a thousand million events, of which the account pays
/// one and then none.
const HEADER: &str = "moment,session,group,blocks,rated,collected,uncollected,covered\n";

const ONE_PAID: &str = "1767607200,s16,30,1000000000,90000000000000,90000,89999999910000,0\n";

const NONE_PAID: &str = "1767607200,s16,30,1000000000,90000000000000,0,90000000000000,0\n";

/// The account of the lines.
fn account(rt: &impl Abort, alloc: Global) -> AccountNumber {
    let account = AccountNumber::new(alloc, "49151").expect(rt, "memory");
    account.expect(rt, "an account number")
}

/// January 2026.
fn january(rt: &impl Abort) -> Month {
    Month::new(202_601).expect(rt, "a month")
}

/// What was written, and in a last line how it ended.
fn with_end(
    rt: &impl Abort,
    alloc: Global,
    written: &[u8],
    end: Result<(), StatementFault>,
) -> String {
    let text = str::from_utf8(written).expect(rt, "a text");
    let told = match end {
        Ok(()) => format!(in alloc; "{text}\ndone"),
        Err(fault) => format!(in alloc; "{text}\nfault {}", fault.number()),
    };
    told.expect(rt, "memory")
}

/// A statement or an export over a writer that fails after so many bytes.
#[derive(Drop)]
struct Writing<'a> {
    keeper: MemoryKeeper,
    buckets: Vec<Bucket>,
    account: AccountNumber,
    month: Month,
    moment: Moment,
    shelf: &'a TariffShelf,
    is_export: bool,
    text: &'static str,
}

impl<'a> Trial for Writing<'a> {
    fn told<R: Abort>(&mut self, rt: &R, alloc: Global, at: usize) -> String {
        let asked = AccountMonth {
            account: &self.account,
            month: self.month,
            book: self.shelf.first(),
        };
        let mut writer = Slow::new(alloc, at);
        let keeper = &mut self.keeper;
        let end = if self.is_export {
            export(alloc, keeper, &mut writer, &asked)
        } else {
            let buckets = self.buckets.as_slice();
            statement(alloc, keeper, &mut writer, &asked, self.moment, buckets)
        };
        with_end(rt, alloc, writer.taken.as_slice(), end)
    }

    fn expected<R: Abort>(&mut self, rt: &R, alloc: Global, at: usize) -> String {
        let (taken, rest) = self.text.split_at_checked(at).expect(rt, "bytes");
        let end = if rest.is_empty() { "done" } else { "fault 3" };
        format!(in alloc; "{taken}\n{end}").expect(rt, "memory")
    }
}

/// As of five past ten, where no bucket is live any more.
fn half_paid_month<'a>(
    rt: &impl Abort,
    alloc: Global,
    shelf: &'a TariffShelf,
    is_export: bool,
    text: &'static str,
) -> Writing<'a> {
    let mut keeper = MemoryKeeper::new(alloc);
    ask_all(rt, alloc, shelf, &mut keeper, HALF_PAID);
    let account = account(rt, alloc);
    let buckets = keeper.dead_buckets(&account).expect(rt, "buckets");
    Writing {
        keeper,
        buckets,
        account,
        month: january(rt),
        moment: moment(rt, 1_767_607_500),
        shelf,
        is_export,
        text,
    }
}

/// An allowance of three blocks, of which all was used.
fn used_allowance(rt: &impl Abort) -> Bucket {
    let columns = Columns {
        number: 2,
        kind: BucketKind::Blocks,
        from: moment(rt, 1_767_571_200),
        until: Moment::no_end(),
        scope: Some(10),
        credited: 3,
        available: 0,
        reserved: 0,
        charged: 3,
        expired: 0,
    };
    Bucket::from_columns(&columns).expect(rt, "a bucket")
}

/// The statement of that account, with an allowance.
fn allowed_month<'a>(rt: &impl Abort, alloc: Global, shelf: &'a TariffShelf) -> Writing<'a> {
    let mut month = half_paid_month(rt, alloc, shelf, false, ALLOWED);
    let allowance = used_allowance(rt);
    month.buckets.push(allowance).expect(rt, "memory");
    month
}

/// It has taken exactly these bytes; where it takes all, the whole text.
// rule: http-answer.taken, statement
#[test]
fn a_writer_that_fails_at_each_byte(rt: HostRuntime) {
    let alloc = rt.alloc();
    let shelf = shelf(&rt, alloc);
    try_below(
        &rt,
        alloc,
        &mut half_paid_month(&rt, alloc, &shelf, false, STATEMENT),
        542,
    );
    try_below(
        &rt,
        alloc,
        &mut half_paid_month(&rt, alloc, &shelf, true, EXPORT),
        107,
    );
    try_below(&rt, alloc, &mut allowed_month(&rt, alloc, &shelf), 774);
}

/// An export of a source that fails after so many rows.
#[derive(Drop)]
struct Rows<'a> {
    source: Broken,
    account: AccountNumber,
    month: Month,
    shelf: &'a TariffShelf,
}

impl<'a> Trial for Rows<'a> {
    fn told<R: Abort>(&mut self, rt: &R, alloc: Global, at: usize) -> String {
        self.source.left = at;
        let asked = AccountMonth {
            account: &self.account,
            month: self.month,
            book: self.shelf.first(),
        };
        let mut written = Vec::new(alloc);
        let end = export(alloc, &mut self.source, &mut written, &asked);
        with_end(rt, alloc, written.as_slice(), end)
    }

    fn expected<R: Abort>(&mut self, rt: &R, alloc: Global, at: usize) -> String {
        let first = if at == 0 { "" } else { ONE_PAID };
        let others = NONE_PAID
            .repeat(alloc, at.saturating_sub(1))
            .expect(rt, "memory");
        format!(in alloc; "{HEADER}{first}{}\nfault 2", others.as_str()).expect(rt, "memory")
    }
}

/// A keeper with eleven charges of a thousand million events each.
fn keeper_of_events<R: Abort>(rt: &R, alloc: Global, shelf: &TariffShelf) -> MemoryKeeper {
    let mut keeper = MemoryKeeper::new(alloc);
    ask_all(rt, alloc, shelf, &mut keeper, FIRST_EVENT);
    for number in 1..12 {
        let line = many_events(rt, alloc, number);
        ask_all(rt, alloc, shelf, &mut keeper, line.as_str());
    }
    keeper
}

/// The header and the records of these rows are written.
// rule: charge-source, charge-source.visits
#[test]
fn a_source_that_fails_at_each_row(rt: HostRuntime) {
    let alloc = rt.alloc();
    let shelf = shelf(&rt, alloc);
    let mut rows = Rows {
        source: Broken {
            keeper: keeper_of_events(&rt, alloc, &shelf),
            left: 0,
        },
        account: account(&rt, alloc),
        month: january(&rt),
        shelf: &shelf,
    };
    try_below(&rt, alloc, &mut rows, 12);
}
