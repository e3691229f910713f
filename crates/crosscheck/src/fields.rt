//! Examples of fields: their closed spans and written orders, and what is refused.

ghost use Rattle.field.specs.Reversed.{turned};
ghost use Rattle.field.specs.Strip.{records};
ghost use Rattle.field.specs.Windows.{window, window_at};
ghost use Rattle.std.specs.Prelude.{◌≡◌, map, negsuc, slice_set};

use crate::telling::{blank_list, tell_list, tell_ranges};
use field::{Field, Held, Refusal, Reversed, Strip, Window};
use reckoning::Start;
use reckoning::order::order;
use reckoning::range::range;
use reckoning::spans::spans;
use std::alloc::{AllocError, Global};
use std::{fmt, io};
use theory::Span;

/// A field to try: its pace, and the early and late start of each group, numbered from 1.
struct Sample {
    title: &'static str,
    pace: u16,
    groups: &'static [(i32, i32)],
}

const SAMPLES: [Sample; 13] = [
    Sample {
        title: "no groups",
        pace: 480,
        groups: &[],
    },
    Sample {
        title: "one group 0..0",
        pace: 480,
        groups: &[(0, 0)],
    },
    Sample {
        title: "one group 0..478",
        pace: 480,
        groups: &[(0, 478)],
    },
    Sample {
        title: "one group 0..479",
        pace: 480,
        groups: &[(0, 479)],
    },
    Sample {
        title: "two groups 0..480",
        pace: 480,
        groups: &[(0, 480), (0, 480)],
    },
    Sample {
        title: "two groups 0..479",
        pace: 480,
        groups: &[(0, 479), (0, 479)],
    },
    Sample {
        title: "0..1000 and 100..300",
        pace: 480,
        groups: &[(0, 1000), (100, 300)],
    },
    Sample {
        title: "2..6, 10..14 and 4..15",
        pace: 6,
        groups: &[(2, 6), (10, 14), (4, 15)],
    },
    Sample {
        title: "below the least pace",
        pace: 0,
        groups: &[(0, 86_401)],
    },
    Sample {
        title: "above the greatest pace",
        pace: 3601,
        groups: &[(0, 0)],
    },
    Sample {
        title: "a time of 86401, and early above late elsewhere",
        pace: 480,
        groups: &[(5, 1), (0, 86_401)],
    },
    Sample {
        title: "early above late",
        pace: 480,
        groups: &[(5, 1), (0, 86_400)],
    },
    Sample {
        title: "all times at the bounds",
        pace: 3600,
        groups: &[(-86_400, -86_400), (86_400, 86_400)],
    },
];

/// The strip of some groups, numbered from 1.
fn strip_of(heap: Global, groups: &[(i32, i32)]) -> Result<Vec<u8>, AllocError> {
    let mut bytes = Vec::new(heap);
    for (number, (early, late)) in (1u16..).zip(groups) {
        bytes.extend_from_slice(&number.to_be_bytes())?;
        bytes.extend_from_slice(&early.to_be_bytes())?;
        bytes.extend_from_slice(&late.to_be_bytes())?;
    }
    Ok(bytes)
}

/// Closed spans and written order of a strip.
fn tell_field(rt: &HostRuntime, title: &str, pace: u16, bytes: &[u8]) -> io::Result<()> {
    println!(rt; "{title}, pace {pace}")?;
    let strip = Strip { bytes };
    let mut found = blank_list();
    let told = spans(&strip, pace, &mut found);
    tell_list(rt, "spans", told, &found)?;
    let mut starts = blank_list();
    let told = order(&strip, pace, &mut starts);
    tell_list(rt, "order", told, &starts)
}

/// Has a list written, and tells all its entries, whatever was written.
fn tell_whole<T: fmt::Display, F: FnOnce(&mut [T]) -> Result<usize, Refusal>>(
    rt: &HostRuntime,
    what: &str,
    list: &mut [T],
    write: F,
) -> io::Result<()>
    requires { F.IsAlwaysCallable write }
{
    let told = write(list);
    tell_list(rt, what, told, list)?;
    print!(rt; "  and the list is")?;
    for entry in list.iter() {
        print!(rt; " {entry}")?;
    }
    println!(rt; "")
}

/// Small fields, and one no for each question of a field.
pub fn samples(rt: &HostRuntime) -> io::Result<()> {
    for sample in &SAMPLES {
        let bytes = strip_of(rt.alloc(), sample.groups)?;
        tell_field(rt, sample.title, sample.pace, bytes.as_slice())?;
    }
    Ok(())
}

/// As many groups as a field may have, and one more; the time of 86,401 is not looked at then.
pub fn crowded(rt: &HostRuntime) -> io::Result<()> {
    let bytes = strip_of(rt.alloc(), &[(0, 30_240); 64])?;
    tell_field(rt, "64 groups 0..30240", 480, bytes.as_slice())?;
    let bytes = strip_of(rt.alloc(), &[(0, 30_239); 64])?;
    tell_field(rt, "64 groups 0..30239", 480, bytes.as_slice())?;
    let bytes = strip_of(rt.alloc(), &[(0, 86_401); 65])?;
    tell_field(rt, "65 groups 0..86401", 480, bytes.as_slice())
}

/// A list one entry short is refused and kept; one with more keeps the rest.
pub fn short_lists(rt: &HostRuntime) -> io::Result<()> {
    println!(rt; "two fixed groups, lists of one and of three entries")?;
    let bytes = strip_of(rt.alloc(), &[(0, 0), (1000, 1000)])?;
    let strip = Strip {
        bytes: bytes.as_slice(),
    };
    let mark = Span { first: 7, last: 7 };
    tell_whole(rt, "spans", &mut [mark; 1], |list| spans(&strip, 480, list))?;
    tell_whole(rt, "spans", &mut [mark; 3], |list| spans(&strip, 480, list))?;
    let mark = Start {
        place: 7,
        number: 7,
        start: 7,
    };
    tell_whole(rt, "order", &mut [mark; 1], |list| order(&strip, 480, list))?;
    tell_whole(rt, "order", &mut [mark; 3], |list| order(&strip, 480, list))
}

/// What a pile of layers tells at a place: its meaning is that of its layers, one after another.
fn piled(bytes: &[u8], place: usize) -> Window
    ensures { result ≡ window_at (map turned (slice_set (map turned (records bytes.now)) 1 (window (negsuc 899) (negsuc 99)))) place }
{
    let pile = Reversed(Held::new(Reversed(Strip { bytes }), 1, -900, -100));
    pile.window(place)
}

/// A reversed, held and reversed strip, place by place and at one outside.
pub fn piles(rt: &HostRuntime) -> io::Result<()> {
    let bytes = strip_of(rt.alloc(), &[(0, 1000), (200, 300), (-5, 5)])?;
    for place in 0..4 {
        let told = piled(bytes.as_slice(), place);
        println!(rt; "pile at {place}: {}..{}", told.early, told.late)?;
    }
    Ok(())
}

fn ranges_of<F: Field>(rt: &HostRuntime, what: &str, field: &F) -> io::Result<()> {
    tell_ranges(rt, what, |place| range(field, 480, place))
}

/// First and last starts in a strip and in layers over it.
pub fn ranges(rt: &HostRuntime) -> io::Result<()> {
    let bytes = strip_of(rt.alloc(), &[(0, 1000), (100, 300)])?;
    let bytes = bytes.as_slice();
    ranges_of(rt, "strip", &Strip { bytes })?;
    ranges_of(rt, "reversed", &Reversed(Strip { bytes }))?;
    ranges_of(rt, "held", &Held::new(Strip { bytes }, 1, 1000, 1000))?;
    ranges_of(rt, "clash", &Held::new(Strip { bytes }, 0, 200, 200))
}
