// The Sun and the Moon, and the solid tide that they raise.
ghost use Rattle.std.specs.Prelude.{◌≡◌};
ghost use Rattle.published.specs.Shown.{axis_distance, gamma_of, sun_distance_of, tide_c20, c20_of, plus_of, times_of};

use crate::table::{Heading, Tally};
use slices::Refusal;
use solid_tide::SolidTide;
use sun_moon::SunMoon;
use vectors::Vector;

// ---- eclipses of the Sun

// The Earth's equatorial radius, m, by which gamma is measured.
const RADIUS: f64 = 6_378_137.0;

// Terrestrial time less GPS time, s.
const TT_LESS_GPS: f64 = 51.184;

// Some arcminutes, the accuracy of the Moon's series (Montenbruck and Gill 2000, §3.3.2): 4.6 of them at the Moon's mean distance, in radii.
const SOME_ARCMINUTES: f64 = 0.08;

// How far the axis of the Moon's shadow, the line through both bodies, passes from the Earth's centre.
fn axis_distance(sun: Vector, moon: Vector) -> f64
    ensures { result ≡ axis_distance sun moon }
{
    let axis = vectors::sub(moon, sun);
    vectors::norm(vectors::cross(moon, axis)) / vectors::norm(axis) / RADIUS
}

// The magnitude of gamma.
fn gamma(places: Result<SunMoon, Refusal>) -> Result<f64, Refusal>
    ensures { result ≡ gamma_of places }
{
    let p = places?;
    Ok(axis_distance(p.sun, p.moon))
}

// At the greatest eclipse, in terrestrial time.
fn eclipse(t: Tally, greatest: &str, published: f64) -> Tally {
    let places = forces::sun_moon(crate::calendar::seconds(greatest) - TT_LESS_GPS);
    crate::table::row(t, greatest, 4, published, gamma(places), SOME_ARCMINUTES)
}

// Eight eclipses of NASA's catalogue (F. Espenak and J. Meeus, Five Millennium Catalog of Solar Eclipses, NASA/TP-2006-214141).
pub fn eclipses(t: Tally) -> Tally {
    crate::text::say(Heading(
        "Greatest eclipse, TT: distance of the shadow's axis from the Earth's centre, equatorial radii (NASA)",
    ));
    let a = eclipse(t, "2001-06-21 12:04:46", 0.5701);
    let b = eclipse(a, "2006-03-29 10:12:23", 0.3843);
    let c = eclipse(b, "2009-07-22 02:36:25", 0.0698);
    let d = eclipse(c, "2015-03-20 09:46:47", 0.9454);
    let e = eclipse(d, "2017-08-21 18:26:40", 0.4367);
    let f = eclipse(e, "2019-07-02 19:24:08", 0.6466);
    let g = eclipse(f, "2020-06-21 06:41:15", 0.1209);
    eclipse(g, "2024-04-08 18:18:29", 0.3431)
}

// ---- the Sun's distance

// GPS time less UTC in 2019 and 2020, s.
const GPS_LESS_UTC: f64 = 18.0;

// In million kilometres.
fn sun_distance(places: Result<SunMoon, Refusal>) -> Result<f64, Refusal>
    ensures { result ≡ sun_distance_of places }
{
    Ok(vectors::norm(places?.sun) / 1e9)
}

// The series is a Kepler orbit with three decimals, without the pull of the Moon and the planets: one part in ten thousand.
fn distance(t: Tally, utc: &str, published: f64) -> Tally {
    let places = forces::sun_moon(crate::calendar::seconds(utc) + GPS_LESS_UTC);
    crate::table::row(t, utc, 6, published, sun_distance(places), published * 1e-4)
}

pub fn distances(t: Tally) -> Tally {
    crate::text::say(Heading(
        "Distance of the Sun at aphelion and perihelion, UTC, million km (almanacs)",
    ));
    let a = distance(t, "2019-07-04 22:11:00", 152.104_285);
    distance(a, "2020-01-05 07:48:00", 147.091_144)
}

// ---- the permanent tide

// IERS Conventions 2010, section 6.2.2: A0·H0·k20 with A0 = 4.4228e-8, here times 10^9, and the k20 of the elastic Earth of table 6.3.
const A0: f64 = 44.228;

const H0: f64 = -0.31460;

const K20: f64 = 0.29525;

// Steps of 6 hours that make two revolutions of the Moon's node, 37.2268 years.
const STEPS: usize = 54388;

const STEP: f64 = 21_600.0;

// C(2, 0), which stands fourth, of a tide.
fn tide_c20(tide: Result<SolidTide, Refusal>) -> Result<f64, Refusal>
    ensures { result ≡ tide_c20 tide }
{
    Ok(tide?.c[3])
}

// C(2, 0) of the tide that the Sun and the Moon raise from their places.
fn c20(places: Result<SunMoon, Refusal>) -> Result<f64, Refusal>
    ensures { result ≡ c20_of places }
{
    let p = places?;
    tide_c20(forces::solid_tide(p.sun, p.moon))
}

// A sum, refused where one of the two is.
fn plus(a: Result<f64, Refusal>, b: Result<f64, Refusal>) -> Result<f64, Refusal>
    ensures { result ≡ plus_of a b }
{
    Ok(a? + b?)
}

fn times(a: Result<f64, Refusal>, k: f64) -> Result<f64, Refusal>
    ensures { result ≡ times_of a k }
{
    Ok(a? * k)
}

// The mean of C(2, 0) from 2000-01-01 12:00 on, times 10^9.
fn mean_c20() -> Result<f64, Refusal> {
    let mut sum = Ok(0.0);
    let mut t = 0.0;
    for _ in 0..STEPS {
        sum = plus(sum, c20(forces::sun_moon(t)));
        t += STEP;
    }
    times(sum, 1e9 / std::num::nearest_u64_to_f64(STEPS as u64))
}

// The source has four to five digits, and the Moon's distance is good to 500 km: a tenth of a percent.
pub fn tide(t: Tally) -> Tally {
    crate::text::say(Heading(
        "Permanent part of the solid tide's C(2,0), 1e-9 (IERS Conventions 2010, section 6.2.2)",
    ));
    let published = A0 * H0 * K20;
    crate::table::row(
        t,
        "mean of 37.2268 years",
        6,
        published,
        mean_c20(),
        published * -1e-3,
    )
}
