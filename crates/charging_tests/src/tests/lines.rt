//! Commands as lines of text: `MOMENT open ACCOUNT`, `MOMENT credit ACCOUNT BODY`, `MOMENT
//! credit-nothing ACCOUNT REFERENCE`, `MOMENT allow ACCOUNT BODY`, `MOMENT bar ACCOUNT`, `MOMENT
//! unbar ACCOUNT`, `MOMENT add CODE AMOUNT DAYS SCOPE` with `-` for no days and no scope, `MOMENT
//! redeem ACCOUNT CODE REFERENCE`, `MOMENT sweep`, `MOMENT balance ACCOUNT`, and a request as
//! `MOMENT BODY`.

use charging::DatedCommand;
use commands::{Command, Credit, VoucherAddition, VoucherRedemption};
use identifiers::{AccountNumber, Reference, VoucherCode};
use std::alloc::Global;
use std::process::Abort;
use units::{Moment, Money};
use voucher_rules::VoucherTerms;
use wire::{Scratch, read_allow, read_credit, read_request};

/// The first word of these, and the others.
pub(crate) fn first_word<'w>(rt: &impl Abort, words: &'w str) -> (&'w str, &'w str) {
    words.split_once(" ").expect(rt, "a word and others")
}

pub(crate) fn account(rt: &impl Abort, alloc: Global, word: &str) -> AccountNumber {
    let number = AccountNumber::new(alloc, word).expect(rt, "memory");
    number.expect(rt, "an account")
}

fn reference(rt: &impl Abort, alloc: Global, word: &str) -> Reference {
    let reference = Reference::new(alloc, word).expect(rt, "memory");
    reference.expect(rt, "a reference")
}

pub(crate) fn code(rt: &impl Abort, alloc: Global, word: &str) -> VoucherCode {
    let code = VoucherCode::new(alloc, word).expect(rt, "memory");
    code.expect(rt, "a code")
}

pub(crate) fn moment(rt: &impl Abort, word: &str) -> Moment {
    let seconds = word.parse::<u64>().expect(rt, "seconds");
    Moment::of_command(seconds).expect(rt, "a moment")
}

fn money(rt: &impl Abort, word: &str) -> Money {
    let micros = word.parse::<u64>().expect(rt, "micro-units");
    Money::new(micros).expect(rt, "money")
}

/// A number, or `-`.
fn optional(rt: &impl Abort, word: &str) -> Option<u32> {
    if word == "-" {
        return None;
    }
    Some(word.parse::<u32>().expect(rt, "a number"))
}

/// `ACCOUNT BODY`
fn credit(rt: &impl Abort, alloc: Global, words: &str) -> Command {
    let (number, body) = first_word(rt, words);
    let number = account(rt, alloc, number);
    Command::Credit(read_credit(alloc, number, body.as_bytes(), &mut Scratch::new(alloc)).expect(
        rt, "a credit",
    ))
}

/// `ACCOUNT BODY`
fn allowance(rt: &impl Abort, alloc: Global, words: &str) -> Command {
    let (number, body) = first_word(rt, words);
    let number = account(rt, alloc, number);
    Command::Allow(read_allow(alloc, number, body.as_bytes(), &mut Scratch::new(alloc)).expect(
        rt,
        "an allowance",
    ))
}

/// `ACCOUNT REFERENCE`: a credit of 0, which no body can say.
fn nothing(rt: &impl Abort, alloc: Global, words: &str) -> Command {
    let (number, name) = first_word(rt, words);
    let amount = money(rt, "0");
    Command::Credit(Credit {
        account: account(rt, alloc, number),
        amount,
        from: None,
        until: None,
        scope: None,
        reference: reference(rt, alloc, name),
    })
}

/// `AMOUNT DAYS SCOPE`
fn terms(rt: &impl Abort, words: &str) -> VoucherTerms {
    let (amount, words) = first_word(rt, words);
    let (days, scope) = first_word(rt, words);
    let amount = money(rt, amount);
    let terms = VoucherTerms::new(amount, optional(rt, days), optional(rt, scope));
    terms.expect(rt, "terms of a voucher")
}

/// `CODE AMOUNT DAYS SCOPE`
fn addition(rt: &impl Abort, alloc: Global, words: &str) -> Command {
    let (word, words) = first_word(rt, words);
    let terms = terms(rt, words);
    let code = code(rt, alloc, word);
    Command::AddVoucher(VoucherAddition { code, terms })
}

/// `ACCOUNT CODE REFERENCE`
fn redemption(rt: &impl Abort, alloc: Global, words: &str) -> Command {
    let (number, words) = first_word(rt, words);
    let (word, name) = first_word(rt, words);
    Command::Redeem(VoucherRedemption {
        code: code(rt, alloc, word),
        account: account(rt, alloc, number),
        reference: reference(rt, alloc, name),
    })
}

fn command(rt: &impl Abort, alloc: Global, name: &str, words: &str) -> Command {
    match name {
        "open" => Command::OpenAccount(account(rt, alloc, words)),
        "credit" => credit(rt, alloc, words),
        "credit-nothing" => nothing(rt, alloc, words),
        "allow" => allowance(rt, alloc, words),
        "bar" => Command::Bar(account(rt, alloc, words)),
        "unbar" => Command::Unbar(account(rt, alloc, words)),
        "add" => addition(rt, alloc, words),
        "redeem" => redemption(rt, alloc, words),
        "balance" => Command::Balance(account(rt, alloc, words)),
        _ => Command::Sweep,
    }
}

/// A command but for its moment.
fn read(rt: &impl Abort, alloc: Global, words: &str) -> Command {
    if words.starts_with("{") {
        return read_request(alloc, words.as_bytes(), &mut Scratch::new(alloc)).expect(
            rt,
            "a request",
        );
    }
    let (name, words) = words.split_once(" ").unwrap_or((words, ""));
    command(rt, alloc, name, words)
}

/// The command of a line.
pub(crate) fn dated(rt: &impl Abort, alloc: Global, line: &str) -> DatedCommand {
    let (at, words) = first_word(rt, line);
    let moment = moment(rt, at);
    let command = read(rt, alloc, words);
    DatedCommand { moment, command }
}

/// Whether a line is a command: it begins with a moment, and each moment here with such digits.
pub(crate) fn is_command(line: &str) -> bool {
    line.starts_with("17") || line.starts_with("410")
}

/// The commands among these lines, from the one after so many on, as far as so many.
pub(crate) fn commands_between(
    rt: &impl Abort,
    alloc: Global,
    lines: &str,
    (from, until): (usize, usize),
) -> Vec<DatedCommand> {
    let mut commands = Vec::new(alloc);
    let mut place: usize = 0;
    for line in lines.lines() {
        if is_command(line) {
            if from <= place && place < until {
                commands.push(dated(rt, alloc, line)).expect(rt, "memory");
            }
            place = place.saturating_add(1);
        }
    }
    commands
}

/// All commands among these lines.
pub(crate) fn all_commands(rt: &impl Abort, alloc: Global, lines: &str) -> Vec<DatedCommand> {
    commands_between(rt, alloc, lines, (0, usize::MAX))
}
