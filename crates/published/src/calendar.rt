// Dates of the Gregorian calendar as seconds past 2000-01-01 12:00.
ghost use Rattle.std.specs.Prelude.{◌≤◌};

// The value of the decimal digit at a place, 0 where none stands.
fn value_at(text: &str, at: usize) -> u64
    ensures { result ≤ 9 }
{
    let byte = text.as_bytes().get(at).copied().unwrap_or(0);
    u64::from(char::from(byte).to_digit(10).unwrap_or(0))
}

// The number of two digits, each 0 where none stands.
fn two(text: &str, at: usize) -> u64
    requires { at ≤ 17 }
    ensures { result ≤ 99 }
{
    10 * value_at(text, at) + value_at(text, at + 1)
}

// The Julian day number of a date (H. F. Fliegel and T. C. Van Flandern, Communications of the ACM 11, 1968).
fn julian_day(year: u64, month: u64, day: u64) -> u64
    requires { (year ≤ 100000) × (month ≤ 1000) × (day ≤ 1000) }
    ensures { result ≤ 50000000 }
{
    let m = (month + 9) % 12;
    let y = year + 4800 - m / 10;
    365 * y + y / 4 - y / 100 + y / 400 + (153 * m + 2) / 5 + day - 32045
}

// The seconds from 2000-01-01 12:00 to the time of a text such as 2001-06-21 12:04:46, in its own scale.
pub fn seconds(text: &str) -> f64 {
    let year = 100 * two(text, 0) + two(text, 2);
    let day = julian_day(year, two(text, 5), two(text, 8));
    let second = 3600 * two(text, 11) + 60 * two(text, 14) + two(text, 17);
    let days = std::num::nearest_u64_to_f64(day) - 2451545.0;
    days * 86400.0 - 43200.0 + std::num::nearest_u64_to_f64(second)
}
