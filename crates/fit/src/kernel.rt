// Orbits fitted to observed positions (document 01, module 4), in one lent slice. From `base` on, behind the numbers that a run needs, stand the states of one
// run, six numbers each, and the parts below.
ghost use Rattle.std.specs.Prelude.{◌≡◌, ℕ, ◌+◌, ◌*◌, ◌/◌, ◌<◌, ◌≤◌, true, List, ◌++◌, length, replicate, Float};
ghost use Rattle.std.specs.Float.{nan};
ghost use Rattle.laws.specs.Times.{step_time};
ghost use Rattle.laws.specs.Checks.{rising_seconds};
ghost use Rattle.finality.specs.Brackets.{covers};
ghost use Rattle.integrate.specs.Room.{run_size, Only, Orbit};
ghost use Rattle.inputs.specs.Inputs.{front_size};
ghost use Rattle.inputs.specs.Lent.{model_of, keyed_of};
ghost use Rattle.integrate.specs.Force.{full_force, attraction_of, run_of};
ghost use Rattle.integrate.specs.declared.kernel.Force.TheVariants.{Full, J2};
ghost use Rattle.fit.specs.Fit.{answer_of, state_for, seen, observed, start_of, scale_of, moved_of, updated_of, rms_of};
ghost use Rattle.fit.specs.Room.{base_part, work_size, place_at, run_at};
ghost use Rattle.fit.specs.WorkLeaves.{Measured, Based, Columned, Stored, Noted, Observing, Designed, Linearised, Rounded};
ghost use Rattle.fit.specs.WorkLeaves.{Finished, FitFrom, Fits, arc_serves, Serving, ArcFit};

use slices::Refusal;

// Observed steps: step, x, y, z.
const OBSERVED: usize = 31_818;

// Base positions at the observed steps.
const BASES: usize = 36_062;

const MISFITS: usize = 39_245;

// Rows of the design, 15 numbers each.
const DESIGN: usize = 42_428;

// The end of the work.
const WORK: usize = 90_173;

// How a fit ends: with the rms of its misfits, or refused; the number of a refusal is that of `slices` (`number_of`).
#[derive(Clone, Copy)]
pub enum Fitted {
    Fitted(f64),
    Refused(Refusal),
}

impl Fitted {
    fn of(answer: Result<f64, Refusal>) -> Fitted
        ensures { answer_of result ≡ answer }
    {
        match answer {
            Ok(rms) => Fitted::Fitted(rms),
            Err(refusal) => Fitted::Refused(refusal),
        }
    }

    // The same as a `Result`.
    pub fn answer(self) -> Result<f64, Refusal>
        ensures { result ≡ answer_of self }
    {
        match self {
            Fitted::Fitted(rms) => Ok(rms),
            Fitted::Refused(refusal) => Err(refusal),
        }
    }
}

// What the functions of a fit share: the model, the states that are known, the arc, and where in the lent numbers the states of a run begin.
#[derive(Clone, Copy)]
struct Bench<'a> {
    model: inputs::Model<'a>,
    states: inputs::Keyed<'a>,
    arc: integrate::kernel::Arc,
    base: usize,
    ghost within: { model.degree ≤ 180 },
    ghost rising: { rising_seconds states.keys.now ≡ true },
    ghost few: { arc.steps ≤ 5302 },
    ghost placed: { base ≡ front_size model.degree },
}

// How many of every fifth step's positions are known.
#[derive(Clone, Copy)]
struct Known {
    count: usize,
    ghost few: { count ≤ 1061 },
}

// The state at the second of a time, if it is known.
#[tactic(auto, unfolding(crate::specs::Fit::state_for))]
fn state_for(states: inputs::Keyed<'_>, t: f64) -> Option<integrate::kernel::State>
    ensures { rising_seconds states.entry.keys.now ≡ true → result ≡ state_for (keyed_of states.entry) t }
{
    integrate::rows::state_at(states, numbers::whole_second(numbers::GpsTime(t)))
}

// The states of a run, from the first six parameters.
fn fly(bench: Bench<'_>, force: integrate::kernel::Force, p: [f64; 15], s: &mut [f64])
    requires { bench.base + run_size ≤ length s.old }
    ensures { Orbit s.new bench.entry.base (run_of (attraction_of force (model_of bench.entry.model)) bench.entry.arc p)
        (bench.entry.arc.steps + 1) × Only 0 (bench.entry.base + run_size) s.old s.new }
{
    integrate::kernel::run(force, bench.model, bench.arc, p, s);
}

// The run's coordinate for row r.
#[tactic(auto, unfolding(crate::specs::Room::run_at, crate::specs::Room::step_at))]
fn run_at(s: &[f64], base: usize, r: usize) -> f64
    requires { (r < 3183) × (base + base_part ≤ length s.now) }
    ensures { result ≡ run_at s.now base r }
{
    let k = numbers::count_of(s[base + OBSERVED + 4 * (r / 3)], 5302);
    s[base + 6 * k + r % 3]
}

// The observed coordinate of row r.
#[tactic(auto, unfolding(crate::specs::Room::place_at))]
fn place_at(s: &[f64], base: usize, r: usize) -> f64
    requires { (r < 3183) × (base + base_part ≤ length s.now) }
    ensures { result ≡ place_at s.now base r }
{
    s[base + OBSERVED + 4 * (r / 3) + 1 + r % 3]
}

// What was observed less the run, row by row.
// kept: `bench.base + work_size ≤ length s.old`: no copied struct can carry the room of a slice that is lent anew at each call. A struct that holds the
// slice would promise in every contract that its field is still the same reference (its ghost name). The numbers from `base` on could be lent as one
// `&mut [f64; WORK]`, but a run needs those before it too: its `Orbit` and `Only` count places from the start of `s`, and `Measured`, `Based` and the other
// records of the work would count them from `base`; `linearise`, `design` and `finish`, which do both, would carry places from one count to the other.
// kept: this loop, that of `bases` and that of `column` differ in what they read. One function would be handed a closure of the slice and the row, and would
// promise what the closure answered of a slice that changes from turn to turn.
#[tactic(auto, using(crate::proofs::Rows::measured_none))]
fn misfits(bench: Bench<'_>, s: &mut [f64], known: Known)
    requires { bench.base + work_size ≤ length s.old }
    ensures { Measured s.old s.new bench.entry.base (3 * known.count) }
{
    for r in 0..3 * known.count {
        let v = place_at(s, bench.base, r) - run_at(s, bench.base, r);
        s[bench.base + MISFITS + r] = v;
    }
}

// The run's coordinates, kept as the base of the design.
#[tactic(auto, using(crate::proofs::Rows::based_none))]
fn bases(bench: Bench<'_>, s: &mut [f64], known: Known)
    requires { bench.base + work_size ≤ length s.old }
    ensures { Based s.old s.new bench.entry.base (3 * known.count) }
{
    for r in 0..3 * known.count {
        let v = run_at(s, bench.base, r);
        s[bench.base + BASES + r] = v;
    }
}

// Column i of the design: the run less the base.
#[tactic(auto, using(crate::proofs::Rows::columned_none))]
fn column(bench: Bench<'_>, s: &mut [f64], known: Known, i: usize)
    requires { (i < 15) × (bench.base + work_size ≤ length s.old) }
    ensures { Columned s.old s.new bench.entry.base (3 * known.count) i }
{
    for r in 0..3 * known.count {
        let v = run_at(s, bench.base, r) - s[bench.base + BASES + r];
        s[bench.base + DESIGN + (15 * r + i)] = v;
    }
}

// By how much a parameter is moved.
#[tactic(auto, using(std::proofs::lemmas::Bool::Decides::nat_tests), unfolding(crate::specs::Fit::scale_of))]
fn parameter_scale(i: usize) -> f64
    ensures { result ≡ scale_of i }
{
    if i < 3 {
        return 1.0;
    }
    if i < 6 {
        return 1e-3;
    }
    1.0
}

#[tactic(auto, unfolding(crate::specs::Fit::moved_of))]
fn moved(p: [f64; 15], i: usize) -> [f64; 15]
    requires { i < 15 }
    ensures { result ≡ moved_of p i }
{
    let mut q = p;
    q[i] = p[i] + parameter_scale(i);
    q
}

#[tactic(auto, using(least_squares::proofs::MatrixLoops::row_more, least_squares::proofs::MatrixLoops::row_whole), unfolding(laws::specs::Tables::row, crate::specs::Fit::updated_of))]
fn updated(p: [f64; 15], beta: [f64; 15]) -> [f64; 15]
    ensures { result ≡ updated_of p beta }
{
    let mut q = [0.0; 15];
    for i in 0..15usize {
        q[i] = p[i] + beta[i] * parameter_scale(i);
    }
    q
}

#[tactic(auto, unfolding(crate::specs::Fit::start_of))]
fn start(state: integrate::kernel::State) -> [f64; 15]
    ensures { result ≡ start_of state }
{
    let x = state.position;
    let v = state.velocity;
    [
        x.x, x.y, x.z, v.x, v.y, v.z, 0.0, 0.0, 0.0, 0.0, 0.0, 0.0, 0.0, 0.0, 0.0,
    ]
}

#[tactic(auto, using(crate::proofs::Notes::stored), unfolding(laws::specs::WholeNumbers::number))]
fn put_observed(s: &mut [f64], at: usize, k: usize, v: vectors::Vector)
    requires { at + 4 ≤ length s.old }
    ensures { Stored s.old s.new at k v }
{
    s[at] = std::num::nearest_u64_to_f64(k as u64);
    integrate::kernel::put(s, at + 1, v);
}

// Step 5c's position, if it is known, after n others. Returns how many there are then.
#[tactic(auto, using(crate::proofs::Notes::noted_missing))]
fn note(bench: Bench<'_>, c: usize, s: &mut [f64], n: usize) -> usize
    requires { (n ≤ c) × (c < 1061) × (bench.base + work_size ≤ length s.old) }
    ensures { Noted s.old s.new bench.entry.base n
        (seen (5 * c) (state_for (keyed_of bench.entry.states) (step_time bench.entry.arc.t0 (5 * c)))) result }
{
    match state_for(bench.states, integrate::kernel::time(bench.arc.t0, 5 * c)) {
        Some(state) => {
            put_observed(s, bench.base + OBSERVED + 4 * n, 5 * c, state.position);
            n + 1
        }
        None => n,
    }
}

// The known positions at every fifth step.
fn observe(bench: Bench<'_>, s: &mut [f64]) -> Known
    requires { bench.base + work_size ≤ length s.old }
    ensures { Observing s.old s.new bench.entry.base (observed (state_for (keyed_of bench.entry.states)) bench.entry.arc) result.count }
{
    let mut count: usize = 0;
    for c in 0..bench.arc.steps / 5 + 1 {
        count = note(bench, c, s, count);
    }
    Known { count }
}

// The design, column by column: a run with one parameter moved, less the base.
#[tactic(auto, using(crate::proofs::Columns::designed_none))]
fn design(bench: Bench<'_>, p: [f64; 15], s: &mut [f64], known: Known)
    requires { bench.base + work_size ≤ length s.old }
    ensures { Designed (λ (i : ℕ). run_of (attraction_of J2 (model_of bench.entry.model)) bench.entry.arc (moved_of p i))
        bench.entry.arc.steps s.old s.new bench.entry.base (3 * known.count) 15 }
{
    for i in 0..15usize {
        fly(bench, integrate::kernel::Force::J2, moved(p, i), s);
        column(bench, s, known, i);
    }
}

// Misfits of the full run, and the design around the base run.
fn linearise(bench: Bench<'_>, p: [f64; 15], s: &mut [f64], known: Known)
    requires { bench.base + work_size ≤ length s.old }
    ensures { Linearised (run_of (attraction_of Full (model_of bench.entry.model)) bench.entry.arc p)
        (run_of (attraction_of J2 (model_of bench.entry.model)) bench.entry.arc p)
        (λ (i : ℕ). run_of (attraction_of J2 (model_of bench.entry.model)) bench.entry.arc (moved_of p i))
        bench.entry.arc.steps s.old s.new bench.entry.base (3 * known.count) }
{
    fly(bench, integrate::kernel::Force::Full, p, s);
    misfits(bench, s, known);
    fly(bench, integrate::kernel::Force::J2, p, s);
    bases(bench, s, known);
    design(bench, p, s, known);
}

// One round of Gauss-Newton: the parameters after it, or none.
fn round(bench: Bench<'_>, p: [f64; 15], s: &mut [f64], known: Known) -> Option<[f64; 15]>
    requires { bench.base + work_size ≤ length s.old }
    ensures { Rounded (full_force (model_of bench.entry.model)) bench.entry.arc p s.old s.new bench.entry.base known.count result }
{
    linearise(bench, p, s, known);
    let d = bench.base + DESIGN;
    let m = bench.base + MISFITS;
    let beta = least_squares::kernel::fifteen(
        &s[d..d + 45 * known.count],
        &s[m..m + 3 * known.count],
    )?;
    Some(updated(p, beta))
}

// The root of the mean square.
#[tactic(auto, using(laws::specs::Sums::sum_more), unfolding(laws::specs::Sums::sum_to, laws::specs::WholeNumbers::number, crate::specs::Fit::rms_of))]
fn rms(y: &[f64]) -> f64
    ensures { result ≡ rms_of y.now }
{
    let mut sum = 0.0;
    for x in y {
        sum += *x * *x;
    }
    root::root(sum / std::num::nearest_u64_to_f64(y.len() as u64))
}

// The last full run and its misfits.
fn finish(bench: Bench<'_>, p: [f64; 15], s: &mut [f64], known: Known) -> f64
    requires { bench.base + work_size ≤ length s.old }
    ensures { Finished (full_force (model_of bench.entry.model)) bench.entry.arc p s.old s.new bench.entry.base known.count result }
{
    fly(bench, integrate::kernel::Force::Full, p, s);
    misfits(bench, s, known);
    let m = bench.base + MISFITS;
    rms(&s[m..m + 3 * known.count])
}

// Two rounds from a start, and the final run.
fn fit_from(
    bench: Bench<'_>,
    state: integrate::kernel::State,
    s: &mut [f64],
    known: Known,
) -> Result<f64, Refusal>
    requires { bench.base + work_size ≤ length s.old }
    ensures { FitFrom (full_force (model_of bench.entry.model)) bench.entry.arc state s.old s.new bench.entry.base known.count result }
{
    let p = round(bench, start(state), s, known).ok_or(Refusal::Singular)?;
    let q = round(bench, p, s, known).ok_or(Refusal::Singular)?;
    Ok(finish(bench, q, s, known))
}

// A dynamic orbit fitted to the known positions of an arc; its states stay in scratch.
fn fit_within(bench: Bench<'_>, s: &mut [f64]) -> Result<f64, Refusal>
    requires { bench.base + work_size ≤ length s.old }
    ensures { Fits (covers (model_of bench.entry.model).fields.field_times) (full_force (model_of bench.entry.model))
        (state_for (keyed_of bench.entry.states)) bench.entry.arc s.old s.new bench.entry.base result }
{
    let times = bench.model.field_times;
    let arc = bench.arc;
    slices::tested(model::kernel::covers(times, arc.t0), Refusal::Uncovered)?;
    let end = integrate::kernel::time(arc.t0, arc.steps);
    slices::tested(model::kernel::covers(times, end), Refusal::Uncovered)?;
    let known = observe(bench, s);
    slices::tested(arc.steps / 10 <= known.count, Refusal::TooFew)?;
    let state = state_for(bench.states, arc.t0).ok_or(Refusal::NoStart)?;
    fit_from(bench, state, s, known)
}

// Whether the lent slices serve for a fit.
#[tactic(auto, unfolding(crate::specs::WorkLeaves::arc_serves))]
fn arc_fits(degree: usize, steps: usize, keys: &[i64], states: usize, room: usize) -> bool
    ensures { Serving degree steps keys.now states room result }
{
    degree <= 180
        && steps <= 5302
        && states == 6 * keys.len()
        && inputs::front_size(degree) + WORK <= room
        && slices::rising_keys(keys)
}

// A dynamic orbit fitted to the known positions of an arc; its states stay behind the numbers before them. Nothing is done where the slices do not serve.
pub fn fit_arc(
    model: inputs::Model<'_>,
    states: inputs::Keyed<'_>,
    arc: integrate::kernel::Arc,
    s: &mut [f64],
) -> Fitted
    ensures { ArcFit
        (arc_serves model.entry.degree arc.steps states.entry.keys.now (length states.entry.values.now) (length s.old))
        (covers (model_of model.entry).fields.field_times) (full_force (model_of model.entry))
        (state_for (keyed_of states.entry)) arc s.old s.new (front_size model.entry.degree) (answer_of result) }
{
    if !arc_fits(
        model.degree,
        arc.steps,
        states.keys,
        states.values.len(),
        s.len(),
    ) {
        return Fitted::Refused(Refusal::Length);
    }
    let base = inputs::front_size(model.degree);
    let bench = Bench {
        model,
        states,
        arc,
        base,
    };
    Fitted::of(fit_within(bench, s))
}
