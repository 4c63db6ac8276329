// Orbits by the classical Runge-Kutta rule, and the force chosen by an enum.
#![tactic(auto)]

pub mod kernel;
pub mod rows;

ghost use Rattle.std.specs.Prelude.{◌≡◌, ◌+◌, ◌*◌, ◌≤◌, [], ◌∷◌, length};
ghost use Rattle.slices.specs.Calls.{left};
ghost use Rattle.integrate.specs.Work.{Listed};
ghost use Rattle.inputs.specs.Inputs.{front_size};
ghost use Rattle.inputs.specs.Lent.{model_of};
ghost use Rattle.integrate.specs.Force.{attraction_of, run_of};
ghost use Rattle.integrate.specs.Room.{run_size};
ghost use Rattle.integrate.specs.Calls.{is_start, out_fits, arc_fits, refusal as refusal_of, integrate_call};

use slices::Refusal;

// From −2^31 to 2^31, both included.
#[tactic(auto, unfolding(crate::specs::Calls::is_start))]
pub fn is_start(t: f64) -> bool
    ensures { result ≡ is_start t }
{
    -2147483648.0 <= t && t <= 2147483648.0
}

// Whether there are six numbers for each state of so many steps.
#[tactic(auto, unfolding(crate::specs::Calls::out_fits))]
pub fn out_fits(steps: usize, out: usize) -> bool
    ensures { result ≡ out_fits steps out }
{
    steps <= 5302 && out == 6 * (steps + 1)
}

// The times of an arc.
#[tactic(auto, unfolding(crate::specs::Calls::arc_fits))]
pub fn arc_fine(arc: kernel::Arc) -> bool
    ensures { result ≡ arc_fits arc }
{
    (is_start(arc.t0) && slices::is_time(arc.node)) && numbers::is_finite(arc.period)
}

#[tactic(auto, unfolding(crate::specs::Calls::refusal))]
fn refusal(
    model: inputs::Model<'_>,
    arc: kernel::Arc,
    p: [f64; 15],
    out: usize,
    scratch: usize,
) -> Result<(), Refusal>
    ensures { result ≡ refusal_of (model_of model.entry) arc p out scratch }
{
    let counts = inputs::fields_fine(model.field_times.len()) && arc.steps <= 5302;
    let lengths = model.is_sized_with(scratch) && out_fits(arc.steps, out);
    let values = model.is_fine() && (arc_fine(arc) && slices::all_finite(&p));
    inputs::first_of(
        inputs::degree_fine(model.degree),
        counts,
        lengths,
        values,
        slices::rising(model.field_times),
        Ok(()),
    )
}

// The states of the run, six numbers each, into out.
fn states_of(
    force: kernel::Force,
    model: inputs::Model<'_>,
    arc: kernel::Arc,
    p: [f64; 15],
    out: &mut [f64],
    scratch: &mut [f64],
)
    requires { (model.degree ≤ 180) × (arc.steps ≤ 5302) × (front_size model.degree + run_size ≤ length scratch.old) × (length out.old ≡ 6 * (arc.steps + 1)) }
    ensures { Listed (run_of (attraction_of force (model_of model.entry)) arc p) (arc.steps + 1) out.new scratch.old
        scratch.new }
{
    kernel::run(force, model, arc, p, scratch);
    let base = inputs::front_size(model.degree);
    let end = base + 6 * (arc.steps + 1);
    slices::copy(&scratch[base..end], out);
}

// The states at t0, t0 + 2 s and so on, under the force chosen: position, velocity, from the first six parameters; the other nine are the empirical ones.
#[tactic(auto, unfolding(crate::specs::Calls::integrate_call))]
pub fn integrate(
    force: kernel::Force,
    model: inputs::Model<'_>,
    arc: kernel::Arc,
    p: [f64; 15],
    out: &mut [f64],
    scratch: &mut [f64],
) -> Result<(), Refusal>
    ensures { left result (out.new ∷ []) scratch.new ≡ integrate_call force (model_of model.entry) arc p out.old
        scratch.old }
{
    refusal(model, arc, p, out.len(), scratch.len())?;
    states_of(force, model, arc, p, out, scratch);
    slices::clear(scratch);
    if slices::all_finite(&out[..]) {
        return Ok(());
    }
    slices::clear(out);
    Err(Refusal::NotFinite)
}
