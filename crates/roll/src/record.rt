//! A record of a roll.

/// What a record says. An enter borrows its group's name from the roll's bytes.
// Early and late stand beside each other, as in a row and in the bytes.
#[derive(Clone, Copy, Debug, PartialEq, Eq)]
pub enum Record<'a> {
    Pace {
        seconds: u16,
    },
    Enter {
        number: u16,
        early: i32,
        late: i32,
        name: &'a [u8],
    },
    Change {
        number: u16,
        early: i32,
        late: i32,
    },
    Withdraw {
        number: u16,
    },
    CallUp {
        number: u16,
        time: i32,
    },
    StandDown {
        number: u16,
    },
    SendAway {
        number: u16,
    },
}
