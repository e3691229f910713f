//! Examples of sheets: each call with its answer, and what the sheet holds afterwards.

ghost use Rattle.sheet.specs.Sheets.{SameTrial};

use crate::telling::{blank_list, first, tell_list, tell_range};
use field::Refusal;
use sheet::{Row, Sheet, Standing};
use std::{fmt, io};

/// A call on a sheet. Those that write a list say how many entries it has.
// Not `sheet::Call`: that may hold a slip, which no table of constants can.
#[derive(Clone, Copy)]
pub enum Act {
    Enter(u16, i32, i32),
    Change(u16, i32, i32),
    Withdraw(u16),
    Pace(u16),
    Call(u16, i32),
    StandDown(u16),
    Away(u16),
    Order(usize),
    Through(u16, i32, usize),
    Spans(usize),
    Range(u16),
}

impl fmt::Display for Act {
    fn fmt<W: fmt::Write>(&self, f: &mut fmt::Formatter<W>) -> fmt::Result {
        match *self {
            Act::Enter(number, early, late) => write!(f, "enter {number} {early}..{late}"),
            Act::Change(number, early, late) => write!(f, "change {number} {early}..{late}"),
            Act::Withdraw(number) => write!(f, "withdraw {number}"),
            Act::Pace(seconds) => write!(f, "pace {seconds}"),
            Act::Call(number, time) => write!(f, "call {number} at {time}"),
            Act::StandDown(number) => write!(f, "stand down {number}"),
            Act::Away(number) => write!(f, "away {number}"),
            Act::Order(room) => write!(f, "order, list of {room}"),
            Act::Through(number, time, room) => {
                write!(f, "through {number} at {time}, list of {room}")
            }
            Act::Spans(room) => write!(f, "spans, list of {room}"),
            Act::Range(number) => write!(f, "range {number}"),
        }
    }
}

/// The two groups of which one cannot start first.
const PAIR: [Act; 36] = [
    Act::Enter(1, 0, 1000),
    Act::Enter(2, 100, 300),
    Act::Order(2),
    Act::Spans(2),
    Act::Call(1, 300),
    Act::Call(1, 1001),
    Act::Through(1, 580, 2),
    Act::Through(1, 300, 2),
    Act::Call(1, 580),
    Act::Call(1, 580),
    Act::Change(1, 0, 1000),
    Act::Through(1, 580, 2),
    Act::Through(1, 581, 2),
    Act::StandDown(1),
    Act::StandDown(1),
    Act::Away(1),
    Act::Call(1, 1000),
    Act::Away(1),
    Act::Away(1),
    Act::Change(1, 0, 1000),
    Act::Withdraw(1),
    Act::Call(1, 1000),
    Act::StandDown(1),
    Act::Through(1, 1000, 2),
    Act::Change(2, 100, 521),
    Act::Change(2, 521, 600),
    Act::Order(3),
    Act::Spans(64),
    Act::Call(2, 100),
    Act::Withdraw(2),
    Act::Order(1),
    Act::Enter(3, 1001, 1001),
    Act::Enter(3, 1480, 1480),
    Act::Pace(481),
    Act::Pace(480),
    Act::Pace(1),
];

/// Two groups in one window.
const TWINS: [Act; 8] = [
    Act::Enter(7, 0, 480),
    Act::Enter(5, 0, 480),
    Act::Order(2),
    Act::Pace(481),
    Act::Pace(479),
    Act::Enter(6, 0, 480),
    Act::Change(7, -479, -479),
    Act::Enter(6, 0, 0),
];

/// Each question that a call can fail, and the earlier number where two fail at once.
const REFUSALS: [Act; 44] = [
    Act::Enter(1, 0, 1000),
    Act::Enter(2, 100, 300),
    Act::Enter(0, 0, 86_401),
    Act::Enter(10_000, 5, 1),
    Act::Enter(9_999, 0, 86_401),
    Act::Enter(1, -86_401, 0),
    Act::Enter(1, 86_401, 5),
    Act::Enter(1, 5, 1),
    Act::Enter(1, 0, 0),
    Act::Enter(3, 100, 300),
    Act::Change(9, 0, 86_401),
    Act::Change(9, 5, 1),
    Act::Change(9, 0, 0),
    Act::Change(0, 0, 0),
    Act::Change(1, 100, 300),
    Act::Withdraw(9),
    Act::Pace(0),
    Act::Pace(3_601),
    Act::Pace(901),
    Act::Call(9, 86_401),
    Act::Call(9, 0),
    Act::Call(1, -1),
    Act::Call(1, 100),
    Act::StandDown(9),
    Act::StandDown(1),
    Act::Away(9),
    Act::Away(1),
    Act::Order(1),
    Act::Spans(1),
    Act::Through(9, -86_401, 0),
    Act::Through(9, 0, 0),
    Act::Through(1, -1, 0),
    Act::Through(1, 100, 1),
    Act::Through(1, 100, 2),
    Act::Call(2, 100),
    Act::Call(2, 400),
    Act::Change(2, 100, 300),
    Act::Change(2, 5, 1),
    Act::Away(2),
    Act::Withdraw(2),
    Act::StandDown(2),
    Act::Pace(901),
    Act::Pace(900),
    Act::Through(2, 101, 2),
];

/// Makes a call that changes the sheet.
// A match, not closures: calls stand in tables and are printed.
fn change(sheet: &mut Sheet, act: Act) -> Option<Result<(), Refusal>>
    ensures same { SameTrial sheet.old sheet.new }
{
    match act {
        Act::Enter(number, early, late) => Some(sheet.enter(number, early, late)),
        Act::Change(number, early, late) => Some(sheet.change(number, early, late)),
        Act::Withdraw(number) => Some(sheet.withdraw(number)),
        Act::Pace(seconds) => Some(sheet.pace(seconds)),
        Act::Call(number, time) => Some(sheet.call(number, time)),
        Act::StandDown(number) => Some(sheet.stand_down(number)),
        Act::Away(number) => Some(sheet.away(number)),
        Act::Order(_) | Act::Through(..) | Act::Spans(_) | Act::Range(_) => None,
    }
}

/// Makes a call that tells: a list of so much room, or a range.
// A match, as above.
fn look(rt: &HostRuntime, sheet: &Sheet, act: Act) -> io::Result<()> {
    let mut starts = blank_list();
    let mut spans = blank_list();
    match act {
        Act::Order(room) => {
            let told = sheet.order(first(&mut starts, room));
            tell_list(rt, "order", told, &starts)
        }
        Act::Through(number, time, room) => {
            let told = sheet.through(number, time, first(&mut starts, room));
            tell_list(rt, "through", told, &starts)
        }
        Act::Spans(room) => {
            let told = sheet.spans(first(&mut spans, room));
            tell_list(rt, "spans", told, &spans)
        }
        Act::Range(number) => tell_range(rt, "  ", sheet.range(number)),
        _ => Ok(()),
    }
}

fn tell_row(rt: &HostRuntime, row: &Row) -> io::Result<()> {
    print!(rt; "; {} in {}..{}", row.number, row.early, row.late)?;
    match row.standing {
        Standing::Waiting => Ok(()),
        Standing::Called(time) => print!(rt; " called at {time}"),
        Standing::Away(time) => print!(rt; " away at {time}"),
    }
}

/// What the sheet holds.
pub fn tell_held(rt: &HostRuntime, sheet: &Sheet) -> io::Result<()> {
    print!(rt; "  rows {}, pace {}", sheet.count(), sheet.current_pace())?;
    for row in sheet.rows().all() {
        tell_row(rt, row)?;
    }
    println!(rt; "")
}

/// Makes a call, and tells its answer and what the sheet then holds.
pub fn tell_act(rt: &HostRuntime, sheet: &mut Sheet, act: Act) -> io::Result<()>
    ensures same { SameTrial sheet.old sheet.new }
{
    println!(rt; "{act}")?;
    match change(sheet, act) {
        None => look(rt, sheet, act)?,
        Some(Ok(())) => println!(rt; "  accepted")?,
        Some(Err(refusal)) => println!(rt; "  refused {refusal}")?,
    }
    tell_held(rt, sheet)
}

/// Makes calls on a blank sheet, one after another.
fn story(rt: &HostRuntime, title: &str, acts: &[Act]) -> io::Result<()> {
    println!(rt; "a blank sheet: {title}")?;
    let mut sheet = Sheet::blank(rt.alloc(), 1)?;
    for act in acts {
        tell_act(rt, &mut sheet, *act)?;
    }
    Ok(())
}

/// First and last starts of groups, and times between them at which one cannot start.
const RANGES: [Act; 19] = [
    Act::Enter(1, 0, 480),
    Act::Enter(2, 0, 480),
    Act::Range(1),
    Act::Range(2),
    Act::Change(1, 0, 1000),
    Act::Change(2, 100, 300),
    Act::Range(1),
    Act::Range(2),
    Act::Range(9),
    Act::Call(1, 580),
    Act::Range(1),
    Act::StandDown(1),
    Act::Change(2, 1000, 1000),
    Act::Change(1, 0, 2000),
    Act::Range(1),
    Act::Through(1, 520, 2),
    Act::Through(1, 521, 2),
    Act::Through(1, 1479, 2),
    Act::Through(1, 1480, 2),
];

pub fn stories(rt: &HostRuntime) -> io::Result<()> {
    story(rt, "two groups of which one cannot start first", &PAIR)?;
    story(rt, "two groups in one window", &TWINS)?;
    story(rt, "every refusal", &REFUSALS)?;
    story(rt, "first and last starts", &RANGES)
}

/// Enters groups in one window until one is refused, and tells the sheet's number of groups.
fn crowd(rt: &HostRuntime, late: i32) -> io::Result<()> {
    let mut sheet = Sheet::blank(rt.alloc(), 1)?;
    for number in 1..66 {
        if let Err(refusal) = sheet.enter(number, 0, late) {
            println!(rt; "0..{late}: group {number} refused {refusal}")?;
        }
    }
    println!(rt; "  {} groups", sheet.count())?;
    if sheet.withdraw(30).is_ok() && sheet.enter(70, 0, late).is_ok() {
        println!(rt; "  a withdrawn row serves again: {} groups", sheet.count())?;
    }
    Ok(())
}

/// As many groups as fit, and more.
pub fn crowds(rt: &HostRuntime) -> io::Result<()> {
    crowd(rt, 30_240)?;
    crowd(rt, 30_239)
}
