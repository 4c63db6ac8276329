// The fitted states of both satellites in one lent slice, and the look-up of a second over all windows.
#![tactic(auto)]

ghost use Rattle.std.specs.Prelude.{◌≡◌, ℕ, ◌+◌, ◌*◌, ◌≤◌, ◌&&◌, length};
ghost use Rattle.inputs.specs.Inputs.{window_room, slot_room, front_size};
ghost use Rattle.inputs.specs.Lent.{model_of, keyed_of};
ghost use Rattle.windows.specs.Windows.{states_left, windows_serve};
ghost use Rattle.slots.specs.LookUp.{Looked, Searched, InSlot, InSlots, BothFit};
ghost use Rattle.windows.specs.Slots.{entries_room};

use integrate::kernel::State;

// The state at a second among the n of a slot, seven numbers each.
fn search(s: &[f64], at: usize, n: usize, second: f64) -> Option<State>
    requires { (n ≤ 3500) × (at + entries_room ≤ length s.now) }
    ensures { Searched s.now at n second result }
{
    let (rows, _) = s[at..at + 7 * n].as_chunks::<7>();
    let place = rows.partition_point(|row| row[0] < second);
    let row = rows.get(place)?;
    if second < row[0] {
        return None;
    }
    Some(integrate::kernel::state_in(row, 1))
}

#[tactic(auto, using(crate::proofs::Looking::slot_searched))]
fn in_slot(s: &[f64], at: usize, second: f64) -> Option<State>
    requires { at + slot_room ≤ length s.now }
    ensures { InSlot s.now at second result }
{
    let n = numbers::count_of(s[at], 3500);
    search(s, at + 1, n, second)
}

// Slot after slot.
#[tactic(auto, using(crate::proofs::Looking::empty_none, crate::proofs::Looking::empty_next, crate::proofs::Looking::slot_found))]
fn in_slots(s: &[f64], first: usize, windows: usize, second: f64) -> Option<State>
    requires { first + window_room * windows ≤ length s.now + slot_room }
    ensures { InSlots s.now first windows second result }
{
    for w in 0..windows {
        if let Some(state) = in_slot(s, first + inputs::WINDOW_ROOM * w, second) {
            return Some(state);
        }
    }
    None
}

// The first state at a second, over all windows of a satellite.
#[tactic(auto, using(crate::proofs::Looking::no_room))]
pub fn held(s: &[f64], first: usize, windows: usize, second: numbers::GpsSecond) -> Option<State>
    ensures { Looked s.now first windows second.0 result }
{
    if first > s.len() {
        return None;
    }
    if windows > (s.len() - first + inputs::SLOT_ROOM) / inputs::WINDOW_ROOM {
        return None;
    }
    in_slots(s, first, windows, std::num::nearest_i64_to_f64(second.0))
}

// The fitted states of both satellites, C in the even slots and D in the odd ones. True where the slices serve both.
// kept: a bool, since nothing is handed out but what is lent; `sheet` may ignore it, as its own tests let through only what serves both.
pub fn fill(
    model: inputs::Model<'_>,
    states: inputs::Pair<'_>,
    nodes: &[f64],
    s: &mut [f64],
) -> bool
    ensures { BothFit
        (windows_serve model.entry.degree states.entry.c.keys.now (length states.entry.c.values.now) nodes.now 0 (length s.old)
        && windows_serve model.entry.degree states.entry.d.keys.now (length states.entry.d.values.now) nodes.now 1 (length s.old))
        (states_left (model_of model.entry) (keyed_of states.entry.c)) (states_left (model_of model.entry) (keyed_of states.entry.d))
        nodes.now s.old s.new (front_size model.entry.degree) result }
{
    let c = windows::kernel::fit_windows(model, states.c, nodes, 0, s);
    let d = windows::kernel::fit_windows(model, states.d, nodes, 1, s);
    c && d
}
