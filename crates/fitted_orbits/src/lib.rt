// Fitted orbits of one satellite.
#![tactic(auto)]

mod work;

ghost use Rattle.std.specs.Prelude.{◌≡◌, ◌&&◌, ◌-◌, ◌*◌, eqb, length};
ghost use Rattle.inputs.specs.Inputs.{model_sized, whole_scratch_fits};
ghost use Rattle.inputs.specs.Lent.{model_of, keyed_of};
ghost use Rattle.fitted_orbits.specs.Calls.{given, outputs, places_fit, refusal as refusal_of, left, orbits_call};

use slices::Refusal;
pub use work::Done;

// Lengths of the outputs, for n nodes.
#[tactic(auto, unfolding(crate::specs::Calls::places_fit))]
fn places_fit(n: usize, keys: usize, states: usize, rms: usize) -> bool
    ensures { result ≡ places_fit n keys states rms }
{
    if 64 < n {
        return false;
    }
    let k = n.saturating_sub(1);
    keys == 3500 * k && (states == 6 * (3500 * k) && rms == k)
}

// Lengths of what is lent; places: whether those of the outputs fit.
fn lengths_fit(
    model: inputs::Model<'_>,
    states: inputs::Keyed<'_>,
    nodes: usize,
    places: bool,
    scratch: usize,
) -> bool
    ensures { result ≡ (model_sized (model_of model.entry) && eqb (length states.entry.values.now) (6 * length states.entry.keys.now)) &&
        (places && whole_scratch_fits model.entry.degree (length model.entry.field_times.now) nodes 0 scratch) }
{
    let fields = model.field_times.len();
    let each = states.values.len() == 6 * states.keys.len();
    let room = inputs::whole_scratch_fits(model.degree, fields, nodes, 0, scratch);
    (model.is_sized() && each) && (places && room)
}

// fit: whether all lengths do.
#[tactic(auto, unfolding(crate::specs::Calls::refusal))]
fn refusal(
    model: inputs::Model<'_>,
    states: inputs::Keyed<'_>,
    nodes: &[f64],
    fit: bool,
) -> Result<(), Refusal>
    ensures { result ≡ refusal_of (given (model_of model.entry) (keyed_of states.entry) nodes.now) fit }
{
    let times = model.field_times;
    let few = inputs::fields_fine(times.len()) && states.keys.len() <= 200000;
    inputs::first_of(
        inputs::degree_fine(model.degree),
        few && nodes.len() <= 64,
        fit,
        model.is_fine() && (states.is_fine() && slices::all_times(nodes)),
        slices::rising(times) && (slices::rising_keys(states.keys) && slices::rising(nodes)),
        Ok(()),
    )
}

// The dynamic orbits fitted between neighbouring nodes: the states inside each window with their seconds, and an rms a window, without the windows that
// are skipped. Answers how many states and how many windows.
// kept: document 01 lends the outputs of this call one by one.
pub fn fitted_orbits(
    model: inputs::Model<'_>,
    states: inputs::Keyed<'_>,
    nodes: &[f64],
    outkeys: &mut [i64],
    outstates: &mut [f64],
    rms: &mut [f64],
    scratch: &mut [f64],
) -> Result<Done, Refusal>
    ensures { left result (outputs outkeys.new outstates.new rms.new) scratch.new ≡ orbits_call
        (given (model_of model.entry) (keyed_of states.entry) nodes.now)
        (outputs outkeys.old outstates.old rms.old) scratch.old }
{
    let places = places_fit(nodes.len(), outkeys.len(), outstates.len(), rms.len());
    let fit = lengths_fit(model, states, nodes.len(), places, scratch.len());
    refusal(model, states, nodes, fit)?;
    let done = work::fill(model, states, nodes, outkeys, outstates, rms, scratch);
    slices::clear(scratch);
    if slices::all_finite(&outstates[..]) && slices::all_finite(&rms[..]) {
        return Ok(done);
    }
    work::clear_outputs(outkeys, outstates, rms);
    Err(Refusal::NotFinite)
}
