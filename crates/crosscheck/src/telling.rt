//! Lists to be written, and how what was written or told is printed.

use field::Refusal;
use reckoning::Range;
use std::{fmt, io};

/// A list of as many entries as a field may have places, which nobody has written yet.
// An array: by the rules a call fills a list that it is handed, and answers a count.
pub fn blank_list<T: Default + Copy>() -> [T; 64] {
    [T::default(); 64]
}

/// The first `room` entries of a list, or all where it is shorter.
pub fn first<T>(list: &mut [T], room: usize) -> &mut [T] {
    let room = room.min(list.len());
    &mut list[..room]
}

/// The entries that a call wrote, or its refusal.
pub fn tell_list<T: fmt::Display>(
    rt: &HostRuntime,
    what: &str,
    res: Result<usize, Refusal>,
    list: &[T],
) -> io::Result<()> {
    match res {
        Err(refusal) => println!(rt; "  {what} refused {refusal}"),
        Ok(count) => {
            print!(rt; "  {what} {count}:")?;
            for entry in list.iter().take(count) {
                print!(rt; " {entry}")?;
            }
            println!(rt; "")
        }
    }
}

/// A line that ends with first and last start, or the refusal.
pub fn tell_range<B: fmt::Display + Drop>(
    rt: &HostRuntime,
    begin: B,
    res: Result<Range, Refusal>,
) -> io::Result<()> {
    match res {
        Err(refusal) => println!(rt; "{begin}range refused {refusal}"),
        Ok(Range { first, last }) => println!(rt; "{begin}range {first}..{last}"),
    }
}

/// First and last start at each of three places, of which the last is outside.
pub fn tell_ranges<F: FnMut(usize) -> Result<Range, Refusal>>(
    rt: &HostRuntime,
    what: &str,
    mut range_at: F,
) -> io::Result<()>
    requires { F.IsAlwaysCallable range_at }
{
    for place in 0..3 {
        let res = range_at(place);
        tell_range(rt, format_args!("{what} at {place}: "), res)?;
    }
    Ok(())
}
