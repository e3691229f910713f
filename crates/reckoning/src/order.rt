//! The written order of a field.

ghost use Rattle.std.specs.Prelude.{◌≡◌, ◌≤◌, ◌≤ℤ◌, ◌++◌, map, reverse, length, take, drop, pos, IfOk, IfSome};
ghost use Rattle.field.specs.Refusals.{by_number};
ghost use Rattle.reckoning.specs.Lists.{answer, leaves, Thirteen};
ghost use Rattle.reckoning.specs.Order.{least_of, chosen_of, played, start_of, order_told, Plays};
ghost use Rattle.std.specs.Option.{option_map};
ghost use Rattle.theory.specs.Written.{by_place, without};

use crate::closed::Closed;
use crate::reckon::for_list;
use crate::start::Start;
use crate::taken::Taken;
use arrayvec::ArrayVec;
use field::{Numbered, Refusal, Window};
use theory::{Group, Played};

/// The groups by place.
fn number(windows: &[Window]) -> ArrayVec<Group, 64>
    requires { length windows.now ≤ 64 }
    ensures { result.items ≡ by_place 0 windows.now }
{
    let mut groups = ArrayVec::new();
    for (place, win) in windows.iter().enumerate() {
        groups.push(Group { place, win: *win });
    }
    groups
}

/// The least early of the groups, if there is one.
fn least_early(groups: &[Group]) -> Option<i64>
    ensures { result ≡ least_of groups.now }
{
    groups.iter().map(|group| group.win.early).min()
}

/// Of the groups released at a time, the place of the one with the least late, and of equal lates the lowest.
fn next_at(time: i64, groups: &[Group]) -> Option<usize>
    ensures { IfSome (least_of groups.now) (λ e. e ≤ℤ time) → result ≡ option_map (λ g. g.place) (chosen_of time groups.now) }
{
    groups
        .iter()
        .filter(|group| group.win.early <= time)
        .min_by_key(|group| group.win.late)
        .map(|group| group.place)
}

/// Brings the groups but that of a place to the front, in their order, and says how many they are.
// Not `retain` of the list, which swaps what it keeps: an order of like windows takes up to 1.4 times as long by it.
fn keep_others(groups: &mut [Group], place: usize) -> usize
    ensures { take result groups.new ≡ without place groups.old }
{
    let mut kept = 0;
    for i in 0..groups.len() {
        if groups[i].place != place {
            groups[kept] = groups[i];
            kept += 1;
        }
    }
    kept
}

/// Plays a field outside its closed spans: the places with their starts.
fn play(taken: &Taken, closed: &Closed) -> ArrayVec<Played, 64>
    ensures { result.items ≡ played taken.now.pace (reverse closed.now.spans.items) taken.now.windows.items }
{
    let mut groups = number(taken.windows());
    let mut turns = ArrayVec::new();
    let mut free = -86_400;
    while let Some(early) = least_early(&groups) {
        let time = closed.least_outside(free.max(early));
        let place = next_at(time, &groups).unwrap();
        turns.push(Played { place, time });
        let kept = keep_others(&mut groups, place);
        groups.truncate(kept);
        free = time + taken.pace();
    }
    turns
}

/// The entry for a place that is played.
fn entry<F: Numbered>(field: &F, turn: Played) -> Start
    ensures { result ≡ start_of (F.Numbered.numbers field.now) turn }
{
    Start {
        place: turn.place,
        number: field.number(turn.place),
        start: turn.time,
    }
}

fn write<F: Numbered>(field: &F, turns: &[Played], list: &mut [Start])
    requires { length turns.now ≤ length list.old }
    ensures { list.new ≡ map (start_of (F.Numbered.numbers field.now)) turns.now ++ drop (length turns.now) list.old }
{
    // By index: a proof knows no element of a slice's `iter_mut` under `zip`.
    for (i, turn) in turns.iter().enumerate() {
        list[i] = entry(field, *turn);
    }
}

/// Writes the written order, and answers how many entries it has.
pub fn order<F: Numbered>(field: &F, pace: u16, list: &mut [Start]) -> Result<usize, Refusal>
    ensures answer { by_number result ≡ answer (order_told pace (F.Field.windows field.now) (F.Numbered.numbers field.now) (length list.old)) }
    ensures list { list.new ≡ leaves (order_told pace (F.Field.windows field.now) (F.Numbered.numbers field.now) (length list.old)) list.old }
    ensures thirteen { Thirteen pace (F.Field.windows field.now) (length list.old) result }
    ensures plays { IfOk result (λ n. Plays (pos pace) (F.Field.windows field.now) (take n list.new)) }
{
    let (taken, closed) = for_list(field, pace, list.len())?;
    let turns = play(&taken, &closed);
    write(field, &turns, list);
    Ok(turns.len())
}
