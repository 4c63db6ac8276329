// Orbits fitted to observed positions.
#![tactic(auto)]

pub mod kernel;

ghost use Rattle.std.specs.Prelude.{◌≡◌, ◌+◌, ◌*◌, ◌≤◌, [], ◌∷◌, length, take, drop};
ghost use Rattle.slices.specs.Calls.{left};
ghost use Rattle.slices.specs.Slices.{copied};
ghost use Rattle.inputs.specs.Inputs.{front_size};
ghost use Rattle.inputs.specs.Lent.{model_of, keyed_of};
ghost use Rattle.fit.specs.Fit.{answer_of};
ghost use Rattle.fit.specs.Calls.{refusal as refusal_of, fit_call};
ghost use Rattle.fit.specs.Handing.{Handed};
ghost use Rattle.integrate.specs.Room.{run_size};

use kernel::Fitted;
use slices::Refusal;

#[tactic(auto, unfolding(crate::specs::Calls::refusal))]
fn refusal(
    model: inputs::Model<'_>,
    states: inputs::Keyed<'_>,
    arc: integrate::kernel::Arc,
    out: usize,
    scratch: usize,
) -> Result<(), Refusal>
    ensures { result ≡ refusal_of (model_of model.entry) (keyed_of states.entry) arc out scratch }
{
    let times = model.field_times;
    let few = inputs::fields_fine(times.len()) && arc.steps <= 5302;
    let sizes = integrate::out_fits(arc.steps, out)
        && inputs::states_fit(states.keys.len(), states.values.len());
    let numbers = integrate::arc_fine(arc) && states.is_fine();
    inputs::first_of(
        inputs::degree_fine(model.degree),
        few && states.keys.len() <= 200000,
        model.is_sized_with(scratch) && sizes,
        model.is_fine() && numbers,
        slices::rising(times) && slices::rising_keys(states.keys),
        Ok(()),
    )
}

// The fitted states into out, and the rms, where all are finite.
fn hand_out(x: f64, degree: usize, steps: usize, out: &mut [f64], scratch: &mut [f64]) -> Fitted
    requires { (degree ≤ 180) × (steps ≤ 5302) × (front_size degree + run_size ≤ length scratch.old) × (length out.old ≡ 6 * (steps + 1)) }
    ensures { Handed x (take (6 * (steps + 1)) (drop (front_size degree) scratch.old)) out.old scratch.old (answer_of result)
        out.new scratch.new }
{
    let base = inputs::front_size(degree);
    let end = base + 6 * (steps + 1);
    slices::copy(&scratch[base..end], out);
    slices::clear(scratch);
    if numbers::is_finite(x) && slices::all_finite(&out[..]) {
        return Fitted::Fitted(x);
    }
    slices::clear(out);
    Fitted::Refused(Refusal::NotFinite)
}

// A dynamic orbit fitted to the known positions of an arc: the rms of its misfits, and its states, six numbers each, in out.
pub fn fit_orbit(
    model: inputs::Model<'_>,
    states: inputs::Keyed<'_>,
    arc: integrate::kernel::Arc,
    out: &mut [f64],
    scratch: &mut [f64],
) -> Fitted
    ensures { left (answer_of result) (out.new ∷ []) scratch.new ≡ fit_call (model_of model.entry) (keyed_of states.entry)
        arc out.old scratch.old }
{
    if let Err(refused) = refusal(model, states, arc, out.len(), scratch.len()) {
        return Fitted::Refused(refused);
    }
    match kernel::fit_arc(model, states, arc, scratch) {
        Fitted::Fitted(x) => hand_out(x, model.degree, arc.steps, out, scratch),
        Fitted::Refused(refused) => {
            slices::clear(out);
            slices::clear(scratch);
            Fitted::Refused(refused)
        }
    }
}
