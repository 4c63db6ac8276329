// The lists of a submission as they are lent, each with those that it always comes with, and what is tested of each.
ghost use Rattle.std.specs.Prelude.{◌≡◌};
ghost use Rattle.inputs.specs.Inputs.{model_sized, sizes_fit, model_fine, rows_fine, pair_fine, inputs_counted, inputs_fit, inputs_fine, inputs_rise};
ghost use Rattle.inputs.specs.Lent.{model_of, keyed_of, pair_of, inputs_of};

// A time-variable model: a static field, the Legendre tables a and b, and the added fields end to end with their times.
#[derive(Clone, Copy)]
pub struct Model<'a> {
    pub degree: usize,
    pub static_field: &'a [f64],
    pub table_a: &'a [f64],
    pub table_b: &'a [f64],
    pub field_times: &'a [f64],
    pub added: &'a [f64],
}

// Whole seconds, and the numbers that belong to them, end to end: six for a state, one for an accelerometer value.
#[derive(Clone, Copy)]
pub struct Keyed<'a> {
    pub keys: &'a [i64],
    pub values: &'a [f64],
}

// Those of the satellites C and D.
#[derive(Clone, Copy)]
pub struct Pair<'a> {
    pub c: Keyed<'a>,
    pub d: Keyed<'a>,
}

// What the residuals of epochs read: the model, both satellites' states and their accelerometer values.
#[derive(Clone, Copy)]
pub struct Inputs<'a> {
    pub model: Model<'a>,
    pub states: Pair<'a>,
    pub accs: Pair<'a>,
}

// Observed range accelerations: their times, values, and bytes that are 0 when not good.
#[derive(Clone, Copy)]
pub struct Observed<'a> {
    pub times: &'a [f64],
    pub values: &'a [f64],
    pub good: &'a [u8],
}

// What the whole path reads: what the residuals read, the times of the nodes, and the observations.
#[derive(Clone, Copy)]
pub struct Submission<'a> {
    pub inputs: Inputs<'a>,
    pub nodes: &'a [f64],
    pub observed: Observed<'a>,
}

impl<'a> Model<'a> {
    // Whether its lists have the lengths that its degree and the number of fields ask for.
    pub fn is_sized(self) -> bool
        ensures { result ≡ model_sized (model_of self.entry) }
    {
        crate::model_fits(
            self.degree,
            self.field_times.len(),
            self.static_field.len(),
            self.added.len(),
            self.table_a.len(),
            self.table_b.len(),
        )
    }

    // The same, and that of the scratch for a call on the model alone.
    pub fn is_sized_with(self, scratch: usize) -> bool
        ensures { result ≡ sizes_fit (model_of self.entry) scratch }
    {
        crate::lengths_fit(
            self.degree,
            self.field_times.len(),
            self.static_field.len(),
            self.added.len(),
            self.table_a.len(),
            self.table_b.len(),
            scratch,
        )
    }

    // Whether its numbers are finite and its times within their bounds.
    #[tactic(auto, unfolding(crate::specs::Inputs::model_fine))]
    pub fn is_fine(self) -> bool
        ensures { result ≡ model_fine (model_of self.entry) }
    {
        let fields = slices::all_finite(self.static_field) && slices::all_finite(self.added);
        let tables = slices::all_finite(self.table_a) && slices::all_finite(self.table_b);
        fields && (slices::all_times(self.field_times) && tables)
    }
}

impl<'a> Keyed<'a> {
    // Whether its keys are within their bounds and its numbers finite.
    pub fn is_fine(self) -> bool
        ensures { result ≡ rows_fine (keyed_of self.entry) }
    {
        crate::keyed_fine(self.keys, self.values)
    }
}

impl<'a> Pair<'a> {
    pub fn is_fine(self) -> bool
        ensures { result ≡ pair_fine (pair_of self.entry) }
    {
        self.c.is_fine() && self.d.is_fine()
    }
}

impl<'a> Inputs<'a> {
    // Whether there are not too many fields, states and accelerometer values.
    pub fn are_counted(self) -> bool
        ensures { result ≡ inputs_counted (inputs_of self.entry) }
    {
        crate::counts_fine(
            self.model.field_times.len(),
            self.states.c.keys.len(),
            self.states.d.keys.len(),
            self.accs.c.keys.len(),
            self.accs.d.keys.len(),
        )
    }

    // Lengths of the model and of both satellites' states and accelerometer values.
    pub fn are_sized(self) -> bool
        ensures { result ≡ inputs_fit (inputs_of self.entry) }
    {
        let tables = crate::tables_fit(
            self.states.c.keys.len(),
            self.states.c.values.len(),
            self.states.d.keys.len(),
            self.states.d.values.len(),
            self.accs.c.keys.len(),
            self.accs.c.values.len(),
            self.accs.d.keys.len(),
            self.accs.d.values.len(),
        );
        self.model.is_sized() && tables
    }

    // Numbers, times and keys within their bounds.
    pub fn are_fine(self) -> bool
        ensures { result ≡ inputs_fine (inputs_of self.entry) }
    {
        self.model.is_fine() && (self.states.is_fine() && self.accs.is_fine())
    }

    // The field times and the keys of both satellites, each below the next.
    #[tactic(auto, unfolding(crate::specs::Inputs::rise))]
    pub fn rise(self) -> bool
        ensures { result ≡ inputs_rise (inputs_of self.entry) }
    {
        let states = slices::rising_keys(self.states.c.keys)
            && slices::rising_keys(self.states.d.keys);
        let accs = slices::rising_keys(self.accs.c.keys) && slices::rising_keys(self.accs.d.keys);
        slices::rising(self.model.field_times) && (states && accs)
    }
}
