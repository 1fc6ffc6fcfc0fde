//! Zones with summer time: what their texts say, and which texts none has. What a text says is
//! POSIX's (Base Definitions 8.3) and the ranges of `docs/FORMATS.md`. What their clocks show is
//! tried by `tools/play clocks`.

use crate::tests::tables::{Teller, try_table};
use calendar::{SummerTime, YearlyChange};
use std::alloc::Global;
use std::process::Abort;

/// Tells what a text says.
#[derive(Clone, Copy)]
struct Texts;

/// A yearly change: month, week, weekday and the seconds of its day.
fn told_of_change(rt: &impl Abort, alloc: Global, change: YearlyChange) -> String {
    let text = format!(in alloc;
        "{}.{}.{}/{}",
        change.month, change.week, change.weekday, change.seconds
    );
    text.expect(rt, "memory")
}

/// A rule: the leads of both clocks, and both changes.
fn told_of_rule(rt: &impl Abort, alloc: Global, rule: SummerTime) -> String {
    let begins = told_of_change(rt, alloc, rule.begins);
    let ends = told_of_change(rt, alloc, rule.ends);
    let text = format!(in alloc; "{} {} {begins} {ends}", rule.standard, rule.summer);
    text.expect(rt, "memory")
}

impl Teller for Texts {
    fn tell<R: Abort>(&mut self, rt: &R, alloc: Global, case: &str) -> String {
        match zone_texts::summer_time(case) {
            Some(rule) => told_of_rule(rt, alloc, rule),
            None => String::from_str(alloc, "none").expect(rt, "memory"),
        }
    }
}

/// A lead is 86,400 and the seconds ahead of UTC.
const TEXTS: &str = "\
CET-1CEST,M3.5.0,M10.5.0/3 => 90000 93600 3.5.0/7200 10.5.0/10800
CET-01CEST-02:00,M03.5.0/02,M10.5.0/3:00 => 90000 93600 3.5.0/7200 10.5.0/10800
AEST-10AEDT,M10.1.0,M4.1.0/3 => 122400 126000 10.1.0/7200 4.1.0/10800
LHST-10:30LHDT-11,M10.1.0,M4.1.0 => 124200 126000 10.1.0/7200 4.1.0/7200
EST5EDT,M3.2.0,M11.1.0 => 68400 72000 3.2.0/7200 11.1.0/7200
EST+05EDT+4:00,M3.2.0,M11.1.0 => 68400 72000 3.2.0/7200 11.1.0/7200
NST3:30NDT,M3.2.0/0:01,M11.1.0/00:01 => 73800 77400 3.2.0/60 11.1.0/60
GMT0BST,M3.5.0/1,M10.5.0 => 86400 90000 3.5.0/3600 10.5.0/7200
GMT-0BST,M3.5.0/1,M10.5.0 => 86400 90000 3.5.0/3600 10.5.0/7200
ABCDEF14abcdef,M1.1.0/0,M3.4.6/23:59 => 36000 39600 1.1.0/0 3.4.6/86340
AAA-13BBB-14,M12.4.5,M2.1.3 => 133200 136800 12.4.5/7200 2.1.3/7200
AAA-0:01BBB-0:02,M1.1.1,M11.1.1 => 86460 86520 1.1.1/7200 11.1.1/7200
AAA0:59BBB-1:01,M5.3.2,M9.2.4/7:30 => 82860 90060 5.3.2/7200 9.2.4/27000";

/// Each part missing, doubled, of another kind, and past its range.
const REFUSED: &str = "\
+01:00 => none
 => none
CET => none
CET-1 => none
CET-1CEST => none
CET-1CEST,M3.5.0 => none
CET-1CEST,M3.5.0, => none
CET-1CEST,M3.5.0,M10.5.0/3,M11.1.0 => none
-1CEST,M3.5.0,M10.5.0/3 => none
CE-1CEST,M3.5.0,M10.5.0/3 => none
ABCDEFG-1CEST,M3.5.0,M10.5.0/3 => none
CET-1CE,M3.5.0,M10.5.0/3 => none
CET-1ABCDEFG,M3.5.0,M10.5.0/3 => none
CET-1-2,M3.5.0,M10.5.0/3 => none
<CET>-1CEST,M3.5.0,M10.5.0/3 => none
<+01>-1<+02>,M3.5.0,M10.5.0/3 => none
ČET-1CEST,M3.5.0,M10.5.0/3 => none
C1T-1CEST,M3.5.0,M10.5.0/3 => none
CETCEST,M3.5.0,M10.5.0/3 => none
CET-CEST,M3.5.0,M10.5.0/3 => none
CET--1CEST,M3.5.0,M10.5.0/3 => none
CET+-1CEST,M3.5.0,M10.5.0/3 => none
CET- 1CEST,M3.5.0,M10.5.0/3 => none
CET-001CEST,M3.5.0,M10.5.0/3 => none
CET-15CEST,M3.5.0,M10.5.0/3 => none
CET15CEST,M3.5.0,M10.5.0/3 => none
CET-1:CEST,M3.5.0,M10.5.0/3 => none
CET-1:5CEST,M3.5.0,M10.5.0/3 => none
CET-1:60CEST,M3.5.0,M10.5.0/3 => none
CET-1:000CEST,M3.5.0,M10.5.0/3 => none
CET-1:00:00CEST,M3.5.0,M10.5.0/3 => none
CET14:01CEST,M3.5.0,M10.5.0/3 => none
CET-13:01CEST,M3.5.0,M10.5.0/3 => none
CET-14CEST,M3.5.0,M10.5.0/3 => none
CET-1CEST-1,M3.5.0,M10.5.0/3 => none
CET-1CEST0,M3.5.0,M10.5.0/3 => none
CET-1CEST+2,M3.5.0,M10.5.0/3 => none
CET-1CEST-3:01,M3.5.0,M10.5.0/3 => none
CET-1CEST-2:,M3.5.0,M10.5.0/3 => none
CET-13CEST-14:01,M3.5.0,M10.5.0/3 => none
CET-1CEST-15,M3.5.0,M10.5.0/3 => none
CET-1CESTM3.5.0,M10.5.0/3 => none
CET-1CEST,,M3.5.0,M10.5.0/3 => none
CET-1CEST,M3.5.0M10.5.0/3 => none
CET-1CEST,3.5.0,M10.5.0/3 => none
CET-1CEST,m3.5.0,M10.5.0/3 => none
CET-1CEST,J60,M10.5.0/3 => none
CET-1CEST,60,M10.5.0/3 => none
CET-1CEST,M0.5.0,M10.5.0/3 => none
CET-1CEST,M13.5.0,M10.5.0/3 => none
CET-1CEST,M003.5.0,M10.5.0/3 => none
CET-1CEST,M.5.0,M10.5.0/3 => none
CET-1CEST,M3.0.0,M10.5.0/3 => none
CET-1CEST,M3.6.0,M10.5.0/3 => none
CET-1CEST,M3.05.0,M10.5.0/3 => none
CET-1CEST,M3.5.7,M10.5.0/3 => none
CET-1CEST,M3.5.00,M10.5.0/3 => none
CET-1CEST,M3.5,M10.5.0/3 => none
CET-1CEST,M3.5.,M10.5.0/3 => none
CET-1CEST,M3-5-0,M10.5.0/3 => none
CET-1CEST,M3.5.0/,M10.5.0/3 => none
CET-1CEST,M3.5.0/24,M10.5.0/3 => none
CET-1CEST,M3.5.0/-1,M10.5.0/3 => none
CET-1CEST,M3.5.0/+1,M10.5.0/3 => none
CET-1CEST,M3.5.0/002,M10.5.0/3 => none
CET-1CEST,M3.5.0/2:,M10.5.0/3 => none
CET-1CEST,M3.5.0/2:5,M10.5.0/3 => none
CET-1CEST,M3.5.0/2:60,M10.5.0/3 => none
CET-1CEST,M3.5.0/2:00:00,M10.5.0/3 => none
CET-1CEST,M3.5.0,M10.5.0/24 => none
CET-1CEST,M3.5.0,M10.5.0/3:60 => none
CET-1CEST,M3.5.0,M13.5.0/3 => none
CET-1CEST,M3.5.0,M10.6.0/3 => none
CET-1CEST,M3.5.0,M10.5.7/3 => none
CET-1CEST,M3.5.0,M10.5.0/3  => none
CET-1CEST,M3.5.0,M10.5.0/3, => none
 CET-1CEST,M3.5.0,M10.5.0/3 => none
CET-1CEST,M3.5.0, M10.5.0/3 => none
CET-1CEST,M3.1.0,M3.5.0 => none
CET-1CEST,M3.5.0,M4.1.0 => none
CET-1CEST,M4.1.0,M3.5.0 => none
CET-1CEST,M12.1.0,M1.5.0 => none
CET-1CEST,M1.5.0,M12.1.0 => none";

// rule: zone-text.summer-time-of
#[test]
fn texts_of_zones(rt: HostRuntime) {
    try_table(&rt, rt.alloc(), &mut Texts, TEXTS);
    try_table(&rt, rt.alloc(), &mut Texts, REFUSED);
}
