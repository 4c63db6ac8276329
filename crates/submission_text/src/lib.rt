// A submission as text, taken line by line: sections `NAME COUNT`, each followed by COUNT lines of hexadecimal words. What was read is a `Reading` and
// the numbers of the lines in order: of each section its count, and then its words as the doubles of those bits.
#![tactic(auto)]

ghost use Rattle.std.specs.Prelude.{◌≡◌, ◌+◌, ◌≤◌, ◌<◌, [], ◌∷◌, get_or, length, leb, IfSome};
ghost use Rattle.hexadecimal.specs.Digits.{is_digit, word_at, bits_of, float_at};
ghost use Rattle.std.specs.List.{list_all};
ghost use Rattle.slices.specs.Calls.{first_failed};
ghost use Rattle.submission_text.specs.Text.{column, count_in, header_with, header_of, coefficients, words_in, outside};
ghost use Rattle.submission_text.specs.Text.{count_tests, separator, is_term, is_row, degree_tests, row_tests, degree_after, row_fault};
ghost use Rattle.submission_text.specs.Text.{number_of, header_fault, begun, goes_on, announced, taken_header, taken_row, taken_end, taken};
ghost use Rattle.submission_text.specs.Text.{line_length, Fed};

use hexadecimal;

// Why a text is refused.
#[derive(Clone, Copy, Debug, PartialEq, Eq)]
pub enum Fault {
    // The degree is not from 2 to 180.
    Degree,
    // There is no room for so much.
    Bounds,
    // The text is not in the format of a submission.
    Format,
}

// The number that is answered.
impl From<Fault> for u8 {
    ghost from_gives = { λ f n. n ≡ number_of f };

    fn from(fault: Fault) -> u8 {
        match fault {
            Fault::Degree => 1,
            Fault::Bounds => 2,
            Fault::Format => 11,
        }
    }
}

// How far a text has been read: in which section (9 where all are read, 10 where the text then ended), how many of its lines are still to come (none: its
// header), how many numbers were read, and the degree.
// A section is a number, as the sections follow one another and their tables are indexed by it.
#[derive(Clone, Copy)]
pub struct Reading {
    pub section: usize,
    pub left: usize,
    pub filled: usize,
    pub degree: usize,
}

// The number that stands at `at`, 0 where none does.
fn number_at(text: &[u8], at: usize) -> u64
    ensures { result ≡ bits_of (word_at text.now at) }
{
    hexadecimal::word(text, at).unwrap_or(0)
}

#[tactic(auto, unfolding(hexadecimal::specs::Digits::float_at))]
fn float_at(text: &[u8], at: usize) -> f64
    ensures { result ≡ float_at text.now at }
{
    hexadecimal::float(number_at(text, at))
}

// ---- headers

#[tactic(auto, using(std::proofs::lemmas::Bool::Decides::nat_tests), unfolding(hexadecimal::specs::Digits::is_digit, hexadecimal::specs::Digits::digit_of))]
fn digits_only(text: &[u8]) -> bool
    ensures { result ≡ list_all (is_digit 10) text.now }
{
    text.iter().all(|b| b.is_ascii_digit())
}

#[tactic(auto, using(std::proofs::lemmas::Bool::Decides::nat_tests), unfolding(crate::specs::Text::count_in))]
fn count_in(digits: &[u8]) -> Option<u64>
    ensures { result ≡ count_in digits.now }
{
    let n = digits.len();
    if n < 19 {
        return hexadecimal::decimal(digits, 0, n);
    }
    // More digits than any bound has.
    if digits[0] != b'0' && digits_only(digits) {
        Some(1000000000000000000)
    } else {
        None
    }
}

// The count of a header whose name, with the space after it, is given.
#[tactic(auto, using(std::proofs::lemmas::Bool::Decides::nat_tests, crate::proofs::ReadLines::begins_is), unfolding(crate::specs::Text::header_with))]
fn header(line: &[u8], name: &[u8]) -> Option<u64>
    requires { length name.now < 100 }
    ensures { result ≡ header_with name.now line.now }
{
    let at = name.len();
    if line.len() < at + 2 {
        return None;
    }
    let last = line.len() - 1;
    if line[last] == b'\n' && line.starts_with(name) {
        count_in(&line[at..last])
    } else {
        None
    }
}

// The count of the header of a section.
#[tactic(auto, using(std::proofs::lemmas::Bool::Decides::nat_tests), unfolding(crate::specs::Text::header_of))]
fn header_of(section: usize, line: &[u8]) -> Option<u64>
    ensures { result ≡ header_of section line.now }
{
    match section {
        0 => header(line, b"degree "),
        1 => header(line, b"static "),
        2 => header(line, b"fields "),
        3 => header(line, b"states_c "),
        4 => header(line, b"acc_c "),
        5 => header(line, b"states_d "),
        6 => header(line, b"acc_d "),
        7 => header(line, b"nodes "),
        8 => header(line, b"observations "),
        _ => None,
    }
}

#[tactic(auto, using(std::proofs::lemmas::Bool::Decides::nat_tests), unfolding(crate::specs::Text::outside))]
fn outside(section: usize) -> Fault
    ensures { result ≡ outside section }
{
    if section < 2 {
        Fault::Format
    } else {
        Fault::Bounds
    }
}

// A section's entry in a table, 0 behind the last.
fn entry(table: &[u64; 9], section: usize) -> u64
    ensures { result ≡ get_or table.now section 0 }
{
    table.get(section).copied().unwrap_or(0)
}

// The refusal of a section's count.
#[tactic(auto, using(std::proofs::lemmas::Bool::Decides::nat_tests), unfolding(crate::specs::Text::count_tests))]
fn count_refusal(section: usize, n: u64) -> Result<(), Fault>
    ensures { result ≡ first_failed (count_tests section n) }
{
    let least: [u64; 9] = [1, 1, 2, 0, 0, 0, 0, 0, 0];
    let most: [u64; 9] = [1, 1, 8, 12000, 12000, 12000, 12000, 4, 12000];
    slices::tested(
        entry(&least, section) <= n && n <= entry(&most, section),
        outside(section),
    )
}

// ---- rows

// How many coefficients a field has, all C and all S.
#[tactic(auto, using(std::proofs::lemmas::Bool::Decides::nat_tests), unfolding(crate::specs::Text::coefficients))]
pub fn coefficients(degree: usize) -> usize
    ensures { (result ≡ coefficients degree) × (result ≤ 182) }
{
    if degree < 13 {
        (degree + 1) * (degree + 2)
    } else {
        0
    }
}

// How many words a line of a section has.
#[tactic(auto, using(std::proofs::lemmas::Bool::Decides::nat_tests), unfolding(crate::specs::Text::words_in))]
fn words_in(section: usize, degree: usize) -> usize
    ensures { (result ≡ words_in section degree) × (result ≤ 185) }
{
    let c = coefficients(degree);
    match section {
        0 | 7 => 1,
        1 => 2 + c,
        2 => 3 + c,
        3 | 5 => 7,
        4 | 6 => 2,
        8 => 3,
        _ => 0,
    }
}

// What stands behind a word when so many words are left, itself among them.
#[tactic(auto, using(std::proofs::lemmas::Bool::Decides::nat_tests), unfolding(crate::specs::Text::separator))]
fn separator(left: usize) -> u8
    ensures { result ≡ separator left }
{
    if left == 1 { b'\n' } else { b' ' }
}

#[tactic(auto, using(std::proofs::lemmas::Bool::Decides::nat_tests), unfolding(crate::specs::Text::is_term, crate::specs::Text::separator))]
fn is_term(line: &[u8], at: usize, left: usize) -> bool
    requires { at < 1000000 }
    ensures { result ≡ is_term line.now at left }
{
    let end = at + 16;
    end < line.len() && hexadecimal::word(line, at).is_some() && line[end] == separator(left)
}

// Whether a line is so many words with single spaces between them, and a line feed.
#[tactic(auto, using(crate::proofs::ReadLines::row_bad, crate::proofs::ReadLines::row_goes), unfolding(crate::specs::Text::is_row))]
fn is_row(line: &[u8], words: usize) -> bool
    requires { words ≤ 185 }
    ensures { result ≡ is_row line.now 0 words }
{
    for k in 0..words {
        if !is_term(line, 17 * k, words - k) {
            return false;
        }
    }
    17 * words == line.len()
}

#[tactic(auto, using(crate::proofs::ReadLines::column_turn, crate::proofs::ReadLines::column_done))]
fn fill_row(line: &[u8], out: &mut [f64])
    requires { length out.old ≤ 185 }
    ensures { out.new ≡ column line.now 0 (length out.old) }
{
    for k in 0..out.len() {
        out[k] = float_at(line, 17 * k);
    }
}

#[tactic(auto, using(std::proofs::lemmas::Bool::Decides::nat_tests), unfolding(crate::specs::Text::degree_tests))]
fn degree_refusal(n: u64) -> Result<(), Fault>
    ensures { result ≡ first_failed (degree_tests n) }
{
    slices::tested(2 <= n && n <= 180, Fault::Degree)?;
    slices::tested(n <= 12, Fault::Bounds)
}

// What a row's words must be beside words: the degree, and the good byte of an observation.
#[tactic(auto, using(std::proofs::lemmas::Bool::Decides::nat_tests), unfolding(crate::specs::Text::row_tests))]
fn row_refusal(section: usize, line: &[u8]) -> Result<(), Fault>
    ensures { result ≡ first_failed (row_tests section line.now) }
{
    match section {
        0 => degree_refusal(number_at(line, 0)),
        8 => slices::tested(number_at(line, 34) <= 255, Fault::Format),
        _ => Ok(()),
    }
}

#[tactic(auto, using(std::proofs::lemmas::Bool::Decides::nat_tests), unfolding(crate::specs::Text::degree_after))]
fn degree_after(section: usize, line: &[u8], degree: usize) -> usize
    ensures { result ≡ degree_after section line.now degree }
{
    if section == 0 {
        return number_at(line, 0) as usize;
    }
    degree
}

fn has_room(filled: usize, more: usize, room: usize) -> bool
    ensures { result ≡ leb (filled + more) room }
{
    more <= room && filled <= room - more
}

#[tactic(auto, using(std::proofs::lemmas::Bool::Decides::nat_tests), unfolding(crate::specs::Text::row_fault))]
fn row_fault(
    section: usize,
    words: usize,
    filled: usize,
    room: usize,
    line: &[u8],
) -> Result<(), Fault>
    requires { words ≤ 185 }
    ensures { result ≡ row_fault section words filled room line.now }
{
    slices::tested(is_row(line, words), Fault::Format)?;
    slices::tested(has_room(filled, words, room), Fault::Bounds)?;
    row_refusal(section, line)
}

#[tactic(auto, using(std::proofs::lemmas::Bool::Decides::nat_tests), unfolding(crate::specs::Text::header_fault))]
fn header_fault(section: usize, n: u64, filled: usize, room: usize) -> Result<(), Fault>
    ensures { result ≡ header_fault section n filled room }
{
    slices::tested(has_room(filled, 1, room), Fault::Bounds)?;
    count_refusal(section, n)
}

// ---- lines

// Before the first line.
pub fn start() -> Reading
    ensures { result ≡ begun }
{
    Reading {
        section: 0,
        left: 0,
        filled: 0,
        degree: 0,
    }
}

// A reading in one of the nine sections.
#[derive(Clone, Copy)]
struct Open {
    reading: Reading,
    ghost section: { reading.section < 9 },
}

impl Open {
    // A section with no lines left gives way to the next.
    #[tactic(auto, using(std::proofs::lemmas::Bool::Decides::nat_tests), unfolding(crate::specs::Text::goes_on))]
    fn goes_on(self, left: usize, filled: usize, degree: usize) -> Reading
        ensures { result ≡ goes_on self.reading.section left filled degree }
    {
        let section = self.reading.section;
        Reading {
            section: if left == 0 { section + 1 } else { section },
            left,
            filled,
            degree,
        }
    }

    #[tactic(auto, using(crate::proofs::ReadLines::count_room, crate::proofs::ReadLines::count_refused, crate::proofs::ReadLines::count_taken))]
    fn take_count(self, n: u64, numbers: &mut [f64]) -> Result<Reading, Fault>
        ensures { Fed (announced (length numbers.old) self.reading n) self.reading.filled numbers.old
            result numbers.new }
    {
        let at = self.reading.filled;
        header_fault(self.reading.section, n, at, numbers.len())?;
        numbers[at] = hexadecimal::float(n);
        Ok(self.goes_on(n as usize, at + 1, self.reading.degree))
    }

    #[tactic(auto, unfolding(crate::specs::Text::taken_header))]
    fn take_header(self, line: &[u8], numbers: &mut [f64]) -> Result<Reading, Fault>
        ensures { Fed (taken_header (length numbers.old) line.now self.reading) self.reading.filled
            numbers.old result numbers.new }
    {
        match header_of(self.reading.section, line) {
            Some(n) => self.take_count(n, numbers),
            None => Err(Fault::Format),
        }
    }

    #[tactic(auto, using(crate::proofs::ReadLines::row_room, crate::proofs::ReadLines::row_refused, crate::proofs::ReadLines::row_added))]
    fn take_row(self, line: &[u8], numbers: &mut [f64]) -> Result<Reading, Fault>
        requires { 0 < self.reading.left }
        ensures { Fed (taken_row (length numbers.old) line.now self.reading) self.reading.filled
            numbers.old result numbers.new }
    {
        let section = self.reading.section;
        let at = self.reading.filled;
        let words = words_in(section, self.reading.degree);
        row_fault(section, words, at, numbers.len(), line)?;
        let end = at + words;
        fill_row(line, &mut numbers[at..end]);
        let degree = degree_after(section, line, self.reading.degree);
        Ok(self.goes_on(self.reading.left - 1, end, degree))
    }
}

// Behind the last section the text must end.
#[tactic(auto, using(std::proofs::lemmas::Bool::Decides::nat_tests), unfolding(crate::specs::Text::taken_end))]
fn take_end(line: &[u8], reading: Reading) -> Result<Reading, Fault>
    ensures { result ≡ taken_end line.now reading }
{
    if reading.section == 9 && line.is_empty() {
        Ok(Reading {
            section: 10,
            ..reading
        })
    } else {
        Err(Fault::Format)
    }
}

// Takes one line, the empty one at the end of the text. A refusal leaves the numbers as they were.
#[tactic(auto, using(std::proofs::lemmas::Bool::Decides::nat_tests, crate::proofs::ReadLines::end_taken), unfolding(crate::specs::Text::taken))]
pub fn feed(line: &[u8], reading: Reading, numbers: &mut [f64]) -> Result<Reading, Fault>
    ensures { Fed (taken (length numbers.old) line.now reading) reading.filled numbers.old result numbers.new }
{
    if 8 < reading.section {
        return take_end(line, reading);
    }
    let open = Open { reading };
    if reading.left == 0 {
        return open.take_header(line, numbers);
    }
    open.take_row(line, numbers)
}

// How many bytes the next line has if it is in the format; `None` for a header, which ends with its line feed; 1 after the last
// section, so that the caller tries for one more byte and sees whether the text has ended.
#[tactic(auto, using(std::proofs::lemmas::Bool::Decides::nat_tests), unfolding(crate::specs::Text::line_length))]
pub fn line_length(reading: Reading) -> Option<usize>
    ensures { (result ≡ line_length reading) × IfSome result (λ n. n ≤ 3145) }
{
    if 8 < reading.section {
        return Some(1);
    }
    if reading.left == 0 {
        return None;
    }
    Some(17 * words_in(reading.section, reading.degree))
}
