//! The names that a roll gives.

ghost use Rattle.std.specs.Prelude.{◌≡◌, ◌≤◌, length};
ghost use Rattle.roll.specs.Names.{given, name_of, renamed};
ghost use Rattle.roll.specs.Records.{said};

use crate::fault::Fault;
use crate::record::Record;
use crate::records::Records;

/// The name of a group after one record more: an enter of the group gives it another.
fn renamed<'a>(entry: Record<'a>, number: u16, name: &'a [u8]) -> &'a [u8]
    ensures { result.now ≡ renamed number (said entry.entry).name (said entry.entry).call name.now }
{
    match entry {
        Record::Enter {
            number: entered,
            name: given,
            ..
        } if entered == number => given,
        _ => name,
    }
}

/// The name that the last enter of a group gives.
fn last_name(roll: &[u8], number: u16) -> Result<&[u8], Fault>
    ensures { given result ≡ name_of roll.now number }
{
    let mut name: &[u8] = &[];
    for entry in Records::of(roll) {
        name = renamed(entry?.record, number, name);
    }
    Ok(name)
}

/// The name of a group: that of the roll's last enter with its number, empty if there is none. A roll that fails a
/// question about the roll or a record gives no names.
pub fn name_of(roll: &[u8], number: u16) -> &[u8]
    ensures name { result.now ≡ name_of roll.now number }
    ensures short { length result.now ≤ 20 }
{
    last_name(roll, number).unwrap_or(&[])
}
