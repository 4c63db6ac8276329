// The states that fitted windows leave, each window in a slot of one lent slice: their count, then for each its second and six numbers.
ghost use Rattle.std.specs.Prelude.{◌≡◌, ℕ, ◌+◌, ◌-◌, ◌*◌, ◌<◌, ◌≤◌, true, T, length, slice_index_or, Float};
ghost use Rattle.std.specs.Float.{nan};
ghost use Rattle.std.specs.Float.Ieee.{le, lt};
ghost use Rattle.laws.specs.Checks.{rising_seconds};
ghost use Rattle.laws.specs.Floats.{zero64, ◌⊖◌};
ghost use Rattle.laws.specs.WholeNumbers.{ceil, floor};
ghost use Rattle.laws.specs.Times.{step_time, Time, second_time};
ghost use Rattle.numbers.specs.Seconds.{whole_second};
ghost use Rattle.finality.specs.Arcs.{start, steps, longest, inside};
ghost use Rattle.laws.specs.Tables.{row};
ghost use Rattle.inputs.specs.Inputs.{window_room, slot_room, fit_room, front_size};
ghost use Rattle.inputs.specs.Lent.{model_of, keyed_of};
ghost use Rattle.integrate.specs.Room.{run_size, Run, state_in};
ghost use Rattle.windows.specs.Windows.{states_left, window_fine, arc_between, room_for, windows_serve, Leaves, Windowed, Ends, Filled, WindowsFit};
ghost use Rattle.windows.specs.Slots.{entries_room, lowest, highest, within, Entered, Keeps};

use fit::kernel::Fitted;

// The least whole number that is not below x.
fn ceil(x: f64) -> u64
    requires { T (le zero64 x) × T (le x highest) }
    ensures { result ≡ ceil x }
{
    let n = std::num::truncating_f64_to_u64(x);
    if std::num::nearest_u64_to_f64(n) < x {
        return n + 1;
    }
    n
}

// The greatest whole number that is not above x; a zero keeps its sign.
#[tactic(auto, using(crate::proofs::CutNumbers::floor_zero, crate::proofs::CutNumbers::floor_below, crate::proofs::CutNumbers::floor_above, crate::proofs::CutNumbers::over_zero, crate::proofs::CutNumbers::under_highest, crate::proofs::CutNumbers::above_cut, crate::proofs::CutNumbers::below_cut, crate::proofs::CutNumbers::not_below), unfolding(laws::specs::WholeNumbers::number))]
fn floor(x: f64) -> f64
    requires { T (le lowest x) × T (le x highest) }
    ensures { result ≡ floor x }
{
    if x == 0.0 {
        return 0.0 * x;
    }
    if x < 0.0 {
        return -std::num::nearest_u64_to_f64(ceil(-x));
    }
    std::num::nearest_u64_to_f64(std::num::truncating_f64_to_u64(x))
}

// Half an hour before a node, on an even second.
#[tactic(auto, using(crate::proofs::Times::start_low, crate::proofs::Times::start_high), unfolding(finality::specs::Arcs::start))]
fn start(a: f64) -> f64
    requires { Time a }
    ensures { result ≡ start a }
{
    2.0 * floor((a - 1800.0) / 2.0)
}

// Steps of 2 s to half an hour after the next.
fn steps(a: f64, b: f64) -> usize
    requires { Time a × Time b × T (le a b) × T (lt (b ⊖ a) longest) }
    ensures { (result ≡ steps a b) × (result ≤ 5302) }
{
    ceil((b + 1800.0 - start(a)) / 2.0) as usize
}

// Whether two nodes have a window between them that is shorter than 7,000 s.
#[tactic(auto, unfolding(crate::specs::Windows::window_fine))]
fn window_fine(from: f64, to: f64) -> bool
    ensures { result ≡ window_fine from to }
{
    (slices::is_time(from) && slices::is_time(to)) && (from < to && to - from < 7000.0)
}

// The arc of such a window; of other nodes an arc of no steps.
#[tactic(auto, using(crate::proofs::Arcs::arc_fine, crate::proofs::Arcs::arc_none))]
pub fn arc_between(from: f64, to: f64) -> integrate::kernel::Arc
    ensures { result ≡ arc_between from to }
{
    if window_fine(from, to) {
        return integrate::kernel::Arc {
            t0: start(from),
            steps: steps(from, to),
            node: from,
            period: to - from,
        };
    }
    integrate::kernel::Arc {
        t0: 0.0,
        steps: 0,
        node: 0.0,
        period: 0.0,
    }
}

// Whether a time lies in a window.
#[tactic(auto, unfolding(crate::specs::Slots::within))]
pub fn within(from: f64, to: f64, t: f64) -> bool
    ensures { result ≡ within from to t }
{
    from <= t && t < to
}

// The second of a time, as a float.
fn second_of(t: f64) -> f64
    ensures { result ≡ second_time (whole_second t) }
{
    let k = numbers::whole_second(numbers::GpsTime(t));
    std::num::nearest_i64_to_f64(k.0)
}

// A state with its second.
fn enter(s: &mut [f64], at: usize, t: f64, state: integrate::kernel::State)
    requires { at + 7 ≤ length s.old }
    ensures { Entered s.old s.new at (whole_second t) state }
{
    s[at] = second_of(t);
    integrate::kernel::put_state(s, at + 1, state);
}

// Two neighbouring nodes, the first before the second.
#[derive(Clone, Copy)]
pub struct Span {
    pub from: f64,
    pub to: f64,
    pub ghost ends: { Ends from to },
}

// The states of a run whose times lie in a window, seven numbers each, from a place on. Returns how many there are.
fn keep(t0: f64, span: Span, steps: usize, s: &mut [f64], base: usize, at: usize) -> usize
    requires { (steps ≤ 5302) × ((run : Run) → length (inside t0 span.from span.to 0 (row run (steps + 1))) ≤ 3500) × (base + run_size ≤ at)
        × (at + entries_room ≤ length s.old) }
    ensures { Keeps t0 span.from span.to steps s.old s.new base at result }
{
    let mut n: usize = 0;
    for k in 0..steps + 1 {
        let t = integrate::kernel::time(t0, k);
        if within(span.from, span.to, t) {
            let state = integrate::kernel::state_in(s, base + 6 * k);
            enter(s, at + 7 * n, t, state);
            n += 1;
        }
    }
    n
}

// What the windows of one satellite share: the model, the states that are known, and where those of a run begin.
#[derive(Clone, Copy)]
pub struct Track<'a> {
    pub model: inputs::Model<'a>,
    pub states: inputs::Keyed<'a>,
    pub base: usize,
    pub ghost within: { model.degree ≤ 180 },
    pub ghost placed: { base ≡ front_size model.degree },
    pub ghost rising: { rising_seconds states.keys.now ≡ true },
    pub ghost six_each: { length states.values.now ≡ 6 * length states.keys.now },
}

// The states of a window, from a place on, none where it is 7,000 s or longer or its fit is refused. Returns how many there are.
fn leave(track: Track<'_>, span: Span, s: &mut [f64], at: usize) -> usize
    requires { (track.base + fit_room ≤ at) × (at + entries_room ≤ length s.old) }
    ensures { Leaves (states_left (model_of track.entry.model) (keyed_of track.entry.states) span.from span.to) s.old s.new track.entry.base at result }
{
    if !(span.to - span.from < 7000.0) {
        return 0;
    }
    let arc = arc_between(span.from, span.to);
    match fit::kernel::fit_arc(track.model, track.states, arc, s) {
        Fitted::Fitted(_) => keep(arc.t0, span, arc.steps, s, track.base, at),
        Fitted::Refused(_) => 0,
    }
}

// One window's slot.
#[tactic(auto, using(crate::proofs::Filling::windowed), unfolding(laws::specs::WholeNumbers::number))]
fn window(track: Track<'_>, span: Span, s: &mut [f64], at: usize)
    requires { (track.base + fit_room ≤ at) × (at + slot_room ≤ length s.old) }
    ensures { Windowed (states_left (model_of track.entry.model) (keyed_of track.entry.states) span.from span.to) s.old s.new track.entry.base at }
{
    let n = leave(track, span, s, at + 1);
    s[at] = std::num::nearest_u64_to_f64(n as u64);
}

// The windows between neighbouring nodes, a slot at every 49,200 numbers.
fn fit_each(track: Track<'_>, nodes: &[f64], s: &mut [f64], first: usize)
    requires { ((w : ℕ) → w + 1 < length nodes.now → Ends (slice_index_or nodes.now w nan) (slice_index_or nodes.now (w + 1) nan))
        × (track.base + fit_room ≤ first)
        × (first + window_room * length nodes.now ≤ length s.old + (window_room + slot_room)) }
    ensures { Filled (states_left (model_of track.entry.model) (keyed_of track.entry.states)) nodes.now (length nodes.now - 1)
        s.old s.new track.entry.base first }
{
    for w in 0..nodes.len().saturating_sub(1) {
        let at = first + inputs::WINDOW_ROOM * w;
        let span = Span {
            from: nodes[w],
            to: nodes[w + 1],
        };
        window(track, span, s, at);
    }
}

// Whether there is room for a fit and for all slots.
#[tactic(auto, unfolding(crate::specs::Windows::room_for))]
fn room_for(degree: usize, nodes: usize, room: usize) -> bool
    ensures { result ≡ room_for degree nodes room }
{
    if degree > 180 {
        return false;
    }
    let base = inputs::front_size(degree) + inputs::FIT_ROOM;
    base <= room && nodes <= (room - base) / inputs::WINDOW_ROOM + 1
}

#[tactic(auto, unfolding(crate::specs::Windows::windows_serve))]
fn windows_serve(
    degree: usize,
    states: inputs::Keyed<'_>,
    nodes: &[f64],
    satellite: usize,
    room: usize,
) -> bool
    ensures { result ≡ windows_serve degree states.entry.keys.now (length states.entry.values.now) nodes.now satellite room }
{
    let shape = room_for(degree, nodes.len(), room)
        && (satellite <= 1 && states.values.len() == 6 * states.keys.len());
    let order = slices::rising_keys(states.keys)
        && (slices::all_times(nodes) && slices::rising(nodes));
    shape && order
}

// The fitted states of every window of one satellite, each in its slot. False, and nothing is done, where the slices do not serve.
// kept: a bool, as in `slots::fill`, which hands it on: nothing is handed out but what is lent.
#[tactic(auto, using(crate::proofs::Filling::served, crate::proofs::Filling::fit_filled))]
pub fn fit_windows(
    model: inputs::Model<'_>,
    states: inputs::Keyed<'_>,
    nodes: &[f64],
    satellite: usize,
    s: &mut [f64],
) -> bool
    ensures { WindowsFit
        (windows_serve model.entry.degree states.entry.keys.now (length states.entry.values.now) nodes.now satellite (length s.old))
        (states_left (model_of model.entry) (keyed_of states.entry)) nodes.now s.old s.new (front_size model.entry.degree) satellite result }
{
    let serves = windows_serve(model.degree, states, nodes, satellite, s.len());
    if serves {
        let base = inputs::front_size(model.degree);
        let first = base + inputs::FIT_ROOM + inputs::SLOT_ROOM * satellite;
        fit_each(
            Track {
                model,
                states,
                base,
            },
            nodes,
            s,
            first,
        );
    }
    serves
}
