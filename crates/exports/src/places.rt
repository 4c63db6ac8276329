// What a call refuses where the list that is lent for its values has not their places: its degree or counts first, else the length.
ghost use Rattle.std.specs.Prelude.{◌≡◌, true, false, ◌&&◌, [], ◌∷◌, leb, length};
ghost use Rattle.laws.specs.Checks.{degree_fine};
ghost use Rattle.slices.specs.Calls.{accepted, first_failed};
ghost use Rattle.inputs.specs.Inputs.{first_of, fields_fine, few, counts_fine};
ghost use Rattle.fields.specs.Calls.{refusal_of as field_refusal};
ghost use Rattle.horizon.specs.Calls.{counts_within};

use slices::Refusal;

pub fn partials(degree: usize) -> Result<(), Refusal>
    ensures { result ≡ field_refusal degree false true }
{
    slices::tested(inputs::degree_fine(degree), Refusal::Degree)?;
    Err(Refusal::Length)
}

pub fn fit(degree: usize, fields: usize, keys: usize, steps: usize) -> Result<(), Refusal>
    ensures { result ≡ first_of (degree_fine degree) ((fields_fine fields && leb steps 5302) && few keys) false true true accepted }
{
    let counts = (inputs::fields_fine(fields) && steps <= 5302) && keys <= 200000;
    inputs::first_of(
        inputs::degree_fine(degree),
        counts,
        false,
        true,
        true,
        Ok(()),
    )
}

pub fn revolutions(times: usize, nodes: usize) -> Result<(), Refusal>
    ensures { result ≡ first_failed ((leb times 100000, Refusal.Count) ∷ (leb nodes 64, Refusal.Count) ∷ (false, Refusal.Length) ∷ []) }
{
    slices::tested(times <= 100000 && nodes <= 64, Refusal::Count)?;
    Err(Refusal::Length)
}

pub fn residuals(
    degree: usize,
    fields: usize,
    c: usize,
    d: usize,
    cacc: usize,
    dacc: usize,
    observed: usize,
) -> Result<(), Refusal>
    ensures { result ≡ first_of (degree_fine degree) (counts_fine fields c d cacc dacc && leb observed 100000) false true true accepted }
{
    let counts = inputs::counts_fine(fields, c, d, cacc, dacc) && observed <= 100000;
    inputs::first_of(
        inputs::degree_fine(degree),
        counts,
        false,
        true,
        true,
        Ok(()),
    )
}

pub fn sheet(
    degree: usize,
    fields: usize,
    c: usize,
    d: usize,
    cacc: usize,
    dacc: usize,
    nodes: usize,
    observed: usize,
) -> Result<(), Refusal>
    ensures { result ≡ first_of (degree_fine degree) (counts_fine fields c d cacc dacc && (leb nodes 64 && leb observed 100000)) false true true accepted }
{
    let lists = inputs::counts_fine(fields, c, d, cacc, dacc);
    let counts = lists && (nodes <= 64 && observed <= 100000);
    inputs::first_of(
        inputs::degree_fine(degree),
        counts,
        false,
        true,
        true,
        Ok(()),
    )
}

pub fn horizon(nodes: usize, tracks: horizon::Tracks<'_>, kept: usize) -> Result<(), Refusal>
    ensures { result ≡ first_of true (counts_within nodes (length tracks.entry.states_c.now) (length tracks.entry.states_d.now)
        (length tracks.entry.acc_c.now) (length tracks.entry.acc_d.now) (length tracks.entry.fields.now)
        (length tracks.entry.observed.now) kept) false true true accepted }
{
    slices::tested(tracks.are_counted(nodes, kept), Refusal::Count)?;
    Err(Refusal::Length)
}
