// The fitted windows of a satellite, one after the other into the lent outputs.
// kept: the outputs are lent one by one, as the call has them. The contract of each function that is lent a struct of them has to promise that its fields are
// still the same references (their ghost names): four functions here, of three fields.
ghost use Rattle.std.specs.Prelude.{◌≡◌, true, [], ℕ, ◌+◌, ◌-◌, ◌*◌, ◌≤◌, ◌<◌, pos, length, get_or, set, replicate};
ghost use Rattle.std.specs.Float.{nan};
ghost use Rattle.laws.specs.Times.{step_time, Time};
ghost use Rattle.numbers.specs.Seconds.{whole_second};
ghost use Rattle.finality.specs.Arcs.{inside};
ghost use Rattle.laws.specs.Tables.{row};
ghost use Rattle.inputs.specs.Lent.{model_of, keyed_of};
ghost use Rattle.fit.specs.Room.{work_size};
ghost use Rattle.integrate.specs.Room.{run_size, Run, state_in};
ghost use Rattle.windows.specs.Slots.{within};
ghost use Rattle.windows.specs.Windows.{Ends};
ghost use Rattle.fitted_orbits.specs.Orbits.{between};
ghost use Rattle.fitted_orbits.specs.Calls.{given, outputs, listed, fitted_between, fitted_windows};
ghost use Rattle.fitted_orbits.specs.Work.{put_six, read_run, Joins, SoFar, Room, Adds, Usable};

use fit::kernel::Fitted;
use windows::kernel::{Span, Track};

// How many states and how many windows stand in the outputs.
#[derive(Clone, Copy)]
pub struct Done {
    pub states: usize,
    pub windows: usize,
}

fn clear_keys(a: &mut [i64])
    ensures { a.new ≡ replicate (length a.old) (pos 0) }
{
    a.fill(0);
}

// Six numbers of s, from a place on, to a place of out.
#[tactic(auto, unfolding(crate::specs::Work::put_six, integrate::specs::Room::state_in))]
fn put_state(s: &[f64], from: usize, out: &mut [f64], at: usize)
    requires { (from + 6 ≤ length s.now) × (at + 6 ≤ length out.old) }
    ensures { out.new ≡ put_six out.old at (state_in s.now from) }
{
    out[at] = s[from];
    out[at + 1] = s[from + 1];
    out[at + 2] = s[from + 2];
    out[at + 3] = s[from + 3];
    out[at + 4] = s[from + 4];
    out[at + 5] = s[from + 5];
}

fn put_second(t: f64, outkeys: &mut [i64], at: usize)
    requires { at < length outkeys.old }
    ensures { outkeys.new ≡ set outkeys.old at (whole_second t) }
{
    let second = numbers::whole_second(numbers::GpsTime(t));
    let key = second.0;
    outkeys[at] = key;
}

// The states of a run whose times lie in a window, after n others. Returns how many there are then.
fn keep(
    t0: f64,
    span: Span,
    steps: usize,
    s: &[f64],
    base: usize,
    first: usize,
    outkeys: &mut [i64],
    outstates: &mut [f64],
) -> usize
    requires { (steps ≤ 5302) × ((run : Run) → length (inside t0 span.from span.to 0 (row run (steps + 1))) ≤ 3500)
        × (base + run_size ≤ length s.now) × (first + 3500 ≤ length outkeys.old) × (6 * (first + 3500) ≤ length outstates.old) }
    ensures { Joins (inside t0 span.from span.to 0 (row (read_run s.now base) (steps + 1))) first result outkeys.old outkeys.new
        outstates.old outstates.new }
{
    let mut n = first;
    for k in 0..steps + 1 {
        let t = integrate::kernel::time(t0, k);
        if windows::kernel::within(span.from, span.to, t) {
            put_second(t, outkeys, n);
            put_state(s, base + 6 * k, outstates, 6 * n);
            n += 1;
        }
    }
    n
}

// An rms at a place. Returns the next place.
fn put_rms(x: f64, rms: &mut [f64], at: usize) -> usize
    requires { at < length rms.old }
    ensures { (result ≡ at + 1) × (rms.new ≡ set rms.old at x) }
{
    rms[at] = x;
    at + 1
}

// A window's states and its rms, unless it is 7,000 s or longer or its fit is refused.
fn window(
    track: Track<'_>,
    span: Span,
    done: Done,
    outkeys: &mut [i64],
    outstates: &mut [f64],
    rms: &mut [f64],
    s: &mut [f64],
) -> Done
    requires { (track.base + work_size ≤ length s.old) × Room done (outputs outkeys.old outstates.old rms.old) }
    ensures { Adds (fitted_between (model_of track.entry.model) (keyed_of track.entry.states) span.from span.to) 1 done result
        (outputs outkeys.old outstates.old rms.old) (outputs outkeys.new outstates.new rms.new) }
{
    if !(span.to - span.from < 7000.0) {
        return done;
    }
    let arc = windows::kernel::arc_between(span.from, span.to);
    if let Fitted::Fitted(x) = fit::kernel::fit_arc(track.model, track.states, arc, s) {
        let (base, first) = (track.base, done.states);
        let states = keep(arc.t0, span, arc.steps, s, base, first, outkeys, outstates);
        let windows = put_rms(x, rms, done.windows);
        return Done { states, windows };
    }
    done
}

// The windows between neighbouring nodes.
fn fit_each(
    track: Track<'_>,
    nodes: &[f64],
    outkeys: &mut [i64],
    outstates: &mut [f64],
    rms: &mut [f64],
    s: &mut [f64],
) -> Done
    requires { (track.base + work_size ≤ length s.old)
        × ((w : ℕ) → w + 1 < length nodes.now → Ends (get_or nodes.now w nan) (get_or nodes.now (w + 1) nan))
        × (length outkeys.old ≡ 3500 * (length nodes.now - 1)) × (length outstates.old ≡ 6 * (3500 * (length nodes.now - 1)))
        × (length rms.old ≡ length nodes.now - 1) }
    ensures { Adds (between (fitted_between (model_of track.entry.model) (keyed_of track.entry.states)) nodes.now) (length nodes.now - 1)
        (record { states = 0; windows = 0 }) result
        (outputs outkeys.old outstates.old rms.old) (outputs outkeys.new outstates.new rms.new) }
{
    let mut done = Done {
        states: 0,
        windows: 0,
    };
    for w in 0..nodes.len().saturating_sub(1) {
        let span = Span {
            from: nodes[w],
            to: nodes[w + 1],
        };
        done = window(track, span, done, outkeys, outstates, rms, s);
    }
    done
}

// 0 and +0.0 in every output.
pub(crate) fn clear_outputs(outkeys: &mut [i64], outstates: &mut [f64], rms: &mut [f64])
    ensures { (k : ℕ) → length outkeys.old ≡ 3500 * k → length outstates.old ≡ 6 * (3500 * k) → length rms.old ≡ k
        → outputs outkeys.new outstates.new rms.new ≡ listed k [] }
{
    clear_keys(outkeys);
    slices::clear(outstates);
    slices::clear(rms);
}

// The fitted windows of all neighbouring nodes; 0 and +0.0 after the last.
pub(crate) fn fill(
    model: inputs::Model<'_>,
    states: inputs::Keyed<'_>,
    nodes: &[f64],
    outkeys: &mut [i64],
    outstates: &mut [f64],
    rms: &mut [f64],
    s: &mut [f64],
) -> Done
    requires { Usable model.degree states.keys.now (length states.values.now) (length s.old)
        × ((w : ℕ) → w + 1 < length nodes.now → Ends (get_or nodes.now w nan) (get_or nodes.now (w + 1) nan))
        × (length outkeys.old ≡ 3500 * (length nodes.now - 1)) × (length outstates.old ≡ 6 * (3500 * (length nodes.now - 1)))
        × (length rms.old ≡ length nodes.now - 1) }
    ensures { SoFar (length nodes.now - 1) (fitted_windows (given (model_of model.entry) (keyed_of states.entry) nodes.now)) result
        (outputs outkeys.new outstates.new rms.new) }
{
    clear_outputs(outkeys, outstates, rms);
    let base = inputs::front_size(model.degree);
    let track = Track {
        model,
        states,
        base,
    };
    fit_each(track, nodes, outkeys, outstates, rms, s)
}
