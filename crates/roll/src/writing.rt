//! Writing a sheet as a roll.

ghost use Rattle.std.specs.Prelude.{◌≡◌, ◌++◌, length, take, IfOk};
ghost use Rattle.field.specs.Refusals.{by_number};
ghost use Rattle.page.specs.Pages.{text, HasRoom};
ghost use Rattle.reckoning.specs.Lists.{answer, leaves};
ghost use Rattle.roll.specs.RoundTrip.{GivesBack};
ghost use Rattle.roll.specs.Written.{call_record, entry, half_bytes, recorded, stand, written, wrote};
ghost use Rattle.sheet.specs.Sheets.{content, holds};

use field::Refusal;
use page::Page;
use sheet::{Row, Sheet, Standing};

/// A record of a kind whose body is a number of two bytes.
fn half_record(kind: u8, n: u16) -> [u8; 4]
    ensures { result ≡ recorded kind (half_bytes n) }
{
    let [a, b] = n.to_be_bytes();
    [kind, 2, a, b]
}

/// An enter with no name, in the window as entered or last changed.
fn enter_record(row: Row) -> [u8; 12]
    ensures { result ≡ entry row }
{
    let [a, b] = row.number.to_be_bytes();
    let [c, d, e, f] = row.early.to_be_bytes();
    let [g, h, i, j] = row.late.to_be_bytes();
    [b'E', 10, a, b, c, d, e, f, g, h, i, j]
}

fn call_record(number: u16, time: i32) -> [u8; 8]
    ensures { result ≡ call_record number time }
{
    let [a, b] = number.to_be_bytes();
    let [c, d, e, f] = time.to_be_bytes();
    [b'K', 6, a, b, c, d, e, f]
}

/// A called group's call, and of one that is away its call and then its away.
fn add_standing(page: &mut Page, row: Row)
    requires { HasRoom page.old (stand row) }
    ensures { text page.new ≡ text page.old ++ stand row }
{
    match row.standing {
        Standing::Waiting => {}
        Standing::Called(time) => page.add(&call_record(row.number, time)),
        Standing::Away(time) => {
            page.add(&call_record(row.number, time));
            page.add(&half_record(b'A', row.number));
        }
    }
}

/// The roll of a sheet.
fn page_of(sheet: &Sheet) -> Page
    ensures { text result ≡ written (content sheet.now) }
{
    let mut page = Page::blank();
    page.add(b"TEE\x00\x01");
    page.add(&half_record(b'P', sheet.current_pace()));
    let rows = sheet.rows().all();
    for row in rows {
        page.add(&enter_record(*row));
    }
    for row in rows {
        add_standing(&mut page, *row);
    }
    page
}

/// Writes a sheet as a roll, and answers how many bytes it has. Played on a blank sheet, the roll gives the same rows,
/// standings and pace.
pub fn write(sheet: &Sheet, list: &mut [u8]) -> Result<usize, Refusal>
    ensures answer { by_number result ≡ answer (wrote (holds sheet.now) (length list.old)) }
    ensures list { list.new ≡ leaves (wrote (holds sheet.now) (length list.old)) list.old }
    ensures back { IfOk result (λ n. GivesBack (take n list.new) (content sheet.now)) }
{
    if sheet.is_in_trial() {
        return Err(Refusal::TrialOpen);
    }
    page_of(sheet).copy_to(list)
}
