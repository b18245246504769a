ghost use Rattle.std.specs.Prelude.{◌≡◌, ◌≤◌, map, length, vec_len, vec_capacity};
ghost use Rattle.std.specs.List.{position_or_len};
ghost use Rattle.drv_periodic.specs.Left.{read_by, is_gone};

use crate::departures::Departure;

/// One more reading of FRINDEX.
fn read_one(departure: &Departure, frindex: u16) -> Departure
    ensures { result ≡ read_by frindex departure.now }
{
    let mut boundary = departure.boundary;
    boundary.read(frindex);
    Departure {
        id: departure.id,
        boundary,
    }
}

/// One more reading of FRINDEX, for all of these.
pub(crate) fn read_all(departures: &mut Vec<Departure>, frindex: u16)
    ensures items { departures.new.items ≡ map (read_by frindex) departures.old.items }
    ensures capacity { vec_capacity departures.new ≡ vec_capacity departures.old }
{
    for place in 0..departures.len() {
        let departure = departures[place];
        departures[place] = read_one(&departure, frindex);
    }
}

/// The place of the first whose boundary is seen, or else how many they are.
pub(crate) fn gone_place(departures: &[Departure]) -> usize
    ensures place { result ≡ position_or_len is_gone departures.now }
    ensures within { result ≤ length departures.now }
{
    for place in 0..departures.len() {
        if departures[place].boundary.is_seen() {
            return place;
        }
    }
    departures.len()
}
