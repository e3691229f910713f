//! Reading one record: kind, length and body, and what the body says.

ghost use Rattle.std.specs.Prelude.{◌≡◌, ◌≢◌, [], ◌∷◌, length, MatchResult, ◌==◌};
ghost use Rattle.field.specs.Refusals.{first_no, question};
ghost use Rattle.field.specs.Strip.{word};
ghost use Rattle.roll.specs.Faults.{by_flaw};
ghost use Rattle.roll.specs.Records.{body_read, change_kind, enter_kind, half, parsed, printable, told};
ghost use Rattle.roll.specs.declared.fault.Flaw.TheVariants.{WrongLength};
ghost use Rattle.sheet.specs.Questions.{answered};
ghost use Rattle.std.specs.List.{list_all};

use crate::fault::Flaw;
use crate::record::Record;

/// The most bytes that a name has.
const LONGEST_NAME: usize = 20;

/// A body that has just so many bytes.
fn exactly<const N: usize>(body: &[u8]) -> Result<&[u8; N], Flaw>
    ensures { MatchResult result (λ bytes. (bytes.now ≡ body.now) × (length body.now ≡ N)) (λ f. (f ≡ WrongLength) × (length body.now ≢ N)) }
{
    body.try_into().map_err(|_| Flaw::WrongLength)
}

/// A body of two bytes, as a number.
fn number(body: &[u8]) -> Result<u16, Flaw>
    ensures { by_flaw result ≡ answered (first_no (question 26 (length body.now == 2) ∷ [])) (half body.now 0) }
{
    Ok(u16::from_be_bytes(*exactly(body)?))
}

/// A body of six bytes: a number and a time.
fn timed(body: &[u8]) -> Result<(u16, i32), Flaw>
    ensures { by_flaw result ≡ answered (first_no (question 26 (length body.now == 6) ∷ [])) (half body.now 0, word body.now 2) }
{
    let [a, b, c, d, e, f] = *exactly::<6>(body)?;
    Ok((u16::from_be_bytes([a, b]), i32::from_be_bytes([c, d, e, f])))
}

/// Ten bytes: a number and a window.
fn windowed(bytes: &[u8; 10]) -> (u16, i32, i32)
    ensures { result ≡ (half bytes.now 0, word bytes.now 2, word bytes.now 6) }
{
    let [a, b, c, d, e, f, g, h, i, j] = *bytes;
    (
        u16::from_be_bytes([a, b]),
        i32::from_be_bytes([c, d, e, f]),
        i32::from_be_bytes([g, h, i, j]),
    )
}

/// Whether a byte may stand in a name.
fn is_printable(byte: u8) -> bool
    ensures { result ≡ printable byte }
{
    matches!(byte, b' '..=b'~')
}

fn are_printable(name: &[u8]) -> bool
    ensures { result ≡ list_all printable name.now }
{
    name.iter().all(|byte| is_printable(*byte))
}

/// The body of an enter: a number, a window and a name.
fn enter(body: &[u8]) -> Result<Record<'_>, Flaw>
    ensures { told result ≡ body_read enter_kind body.now }
{
    let Some((window, name)) = body.split_first_chunk() else {
        return Err(Flaw::WrongLength);
    };
    let (number, early, late) = windowed(window);
    if name.len() > LONGEST_NAME {
        return Err(Flaw::WrongLength);
    }
    if !are_printable(name) {
        return Err(Flaw::UnprintableName);
    }
    Ok(Record::Enter {
        number,
        early,
        late,
        name,
    })
}

/// The body of a change: a number and a window, and nothing after them.
fn change(body: &[u8]) -> Result<Record<'_>, Flaw>
    ensures { told result ≡ body_read change_kind body.now }
{
    let (number, early, late) = windowed(exactly(body)?);
    Ok(Record::Change {
        number,
        early,
        late,
    })
}

/// What a body says, by its kind.
fn by_kind(kind: u8, body: &[u8]) -> Result<Record<'_>, Flaw>
    ensures { told result ≡ body_read kind body.now }
{
    // The letters of the rules: an enum of kinds would only be matched on once more.
    match kind as char {
        'P' => Ok(Record::Pace {
            seconds: number(body)?,
        }),
        'E' => enter(body),
        'C' => change(body),
        'X' => Ok(Record::Withdraw {
            number: number(body)?,
        }),
        'K' => {
            let (number, time) = timed(body)?;
            Ok(Record::CallUp { number, time })
        }
        'S' => Ok(Record::StandDown {
            number: number(body)?,
        }),
        'A' => Ok(Record::SendAway {
            number: number(body)?,
        }),
        _ => Err(Flaw::UnknownKind),
    }
}

/// The record at the beginning of some bytes.
pub fn read(bytes: &[u8]) -> Result<Record<'_>, Flaw>
    ensures { told result ≡ parsed bytes.now }
{
    let [kind, length, rest @ ..] = bytes else {
        return Err(Flaw::Torn);
    };
    let Some(body) = rest.get(..usize::from(*length)) else {
        return Err(Flaw::Torn);
    };
    by_kind(*kind, body)
}
