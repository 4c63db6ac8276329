// Lines of text, and numbers in them.
ghost use Rattle.std.specs.Prelude.{◌≤◌};

use arrayvec::ArrayString;
use io;
use std::fmt;
use std::fmt::Write;

// By which power of ten a magnitude below 1 is to be multiplied for one digit before the point, at most 30; just below 1 it is rounded up to it.
fn shift(size: f64) -> u32
    ensures { result ≤ 30 }
{
    let mut y = size;
    for k in 0..30 {
        if y >= 0.995 {
            return k;
        }
        y *= 10.0;
    }
    30
}

// A number in scientific notation with two digits, eight places wide; from 1 on the exponent is 0.
#[derive(Clone, Copy)]
pub struct Scientific(pub f64);

impl fmt::Display for Scientific {
    fn fmt<W: fmt::Write>(&self, f: &mut fmt::Formatter<W>) -> fmt::Result {
        let x = self.0;
        if x == 0.0 {
            return f.write_str("       0");
        }
        let k = shift(numbers::magnitude(x));
        let digits = x * numbers::power(10.0, k);
        write!(f, "{digits:>4.1}e-{k:02}")
    }
}

// Writes a line and its line feed. No line here has more than 256 bytes; one that had would be cut, and say so.
pub fn say<D: fmt::Display + Drop>(line: D) {
    let mut text = ArrayString::<256>::new();
    let whole = writeln!(text, "{line}").is_ok();
    io::write_all(1, text.as_bytes());
    if !whole {
        io::write_all(1, b" (cut off)\n");
    }
}
