// Rows by whole second: the look-up of a state and of a number in lists whose keys rise.
ghost use Rattle.std.specs.Prelude.{◌≡◌, true};
ghost use Rattle.laws.specs.Checks.{rising_seconds};
ghost use Rattle.finality.specs.Tables.{find as find_in};
ghost use Rattle.inputs.specs.Lent.{keyed_of};
ghost use Rattle.integrate.specs.RowsBySecond.{states_in, values_in};

// The state at a second.
pub fn state_at(
    states: inputs::Keyed<'_>,
    second: numbers::GpsSecond,
) -> Option<crate::kernel::State>
    ensures { rising_seconds states.entry.keys.now ≡ true
        → result ≡ find_in second.0 (states_in (keyed_of states.entry)) }
{
    let place = slices::find(states.keys, second.0)?;
    Some(crate::kernel::state_in(states.values, place.saturating_mul(6)))
}

// The number at a second.
pub fn number_at(numbers: inputs::Keyed<'_>, second: numbers::GpsSecond) -> Option<f64>
    ensures { rising_seconds numbers.entry.keys.now ≡ true
        → result ≡ find_in second.0 (values_in (keyed_of numbers.entry)) }
{
    let place = slices::find(numbers.keys, second.0)?;
    Some(crate::kernel::element(numbers.values, place))
}
