//! Reckons a strip of groups: reads it from standard input, and prints its closed spans in the order
//! found and its written order. The pace in seconds is the one argument, 480 where there is none.

#![tactic(auto)]

use field::strip::RECORD;
use field::{Field, Refusal, Strip};
use reckoning::Start;
use reckoning::order::order;
use reckoning::spans::spans;
use std::io::Read;
use std::{env, io};
use theory::Span;

/// The pace where no argument names one, in seconds.
const USUAL_PACE: u16 = 480;

/// Why no more is told.
enum Failure {
    Io(io::Error),
    /// The arguments are not one whole number that a `u16` can hold.
    BadPace,
    Refused(Refusal),
}

impl From<io::Error> for Failure {
    fn from(error: io::Error) -> Failure {
        Failure::Io(error)
    }
}

impl From<Refusal> for Failure {
    fn from(refusal: Refusal) -> Failure {
        Failure::Refused(refusal)
    }
}

/// The pace that the arguments name.
fn named_pace(rt: &HostRuntime) -> Result<u16, Failure> {
    let mut args = env::args(rt)?;
    let _program = args.next();
    let Some(text) = args.next() else {
        return Ok(USUAL_PACE);
    };
    if args.next().is_some() {
        return Err(Failure::BadPace);
    }
    text.as_str().parse().map_err(|_| Failure::BadPace)
}

/// Tells the closed spans, and then the written order.
fn tell(rt: &HostRuntime, strip: &Strip, pace: u16) -> Result<(), Failure> {
    // Arrays with counts: by the rules a call fills a list that it is handed.
    let mut found = [Span::default(); 64];
    let count = spans(strip, pace, &mut found)?;
    for span in found.iter().take(count) {
        println!(rt; "closed {span}")?;
    }
    let mut starts = [Start::default(); 64];
    let count = order(strip, pace, &mut starts)?;
    for entry in starts.iter().take(count) {
        println!(rt; "start {} group {}", entry.start, entry.number)?;
    }
    Ok(())
}

/// Reads the strip, and tells what there is to tell of it.
fn run(rt: &HostRuntime) -> Result<(), Failure> {
    let pace = named_pace(rt)?;
    let mut bytes = Vec::new(rt.alloc());
    rt.stdin().read_to_end(&mut bytes)?;
    let strip = Strip {
        bytes: bytes.as_slice(),
    };
    println!(rt; "groups {}, pace {pace}", strip.count())?;
    let torn = bytes.len() % RECORD;
    if torn != 0 {
        println!(rt; "ignored a torn last record of {torn} bytes")?;
    }
    tell(rt, &strip, pace)
}

fn main(rt: HostRuntime) -> io::Result<()> {
    match run(&rt) {
        Ok(()) => Ok(()),
        Err(Failure::Io(error)) => Err(error),
        Err(Failure::BadPace) => {
            println!(rt; "bad argument: give the pace alone, in whole seconds from 1 to 3600")?;
            Err(io::Error::from(io::ErrorKind::InvalidInput))
        }
        Err(Failure::Refused(refusal)) => {
            println!(rt; "refused {refusal}")?;
            Err(io::Error::from(io::ErrorKind::InvalidData))
        }
    }
}
