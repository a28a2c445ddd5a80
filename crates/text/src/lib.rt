// Reading the program's standard input: a number, a line, a whole text, as functions on a slice of bytes.
// A cursor is a place in a text, by value: each reading method answers what stands there with the cursor after it, or None where it is malformed.
// What each answer is, is defined in specs/.
#![tactic(auto)]

ghost use Rattle.std.specs.Prelude.{◌≡◌, ◌==◌, ◌+◌, ◌*◌, ◌<◌, ◌≤◌, length, drop, take, take_while, unwrap_or, IfSome, count_by};
ghost use Rattle.std.specs.Char.{is_ascii_digit};
ghost use Rattle.text.specs.Said.{said, step_said, OnText};
ghost use Rattle.text.specs.Numbers.{byte_at, AllDigits, Digits, minus_at, digits_at, value_at, is_numeral, with_sign, number_at};
ghost use Rattle.text.specs.Lines.{past_at, field_at, line_at};
ghost use Rattle.text.specs.Texts.{text_number_of, text_place_of, unended, line_count, placed, LinesTried, Outcome};
ghost use Rattle.sheet.specs.Amounts.{numbers_per_edge};

use sheet::{Edge, Point};

// A place in a text.
#[derive(Clone, Copy)]
pub struct Cursor<'a> {
    pub text: &'a [u8],
    pub at: usize,
}

// Why a text is refused. A malformed line has its number, from 1.
#[derive(Clone, Copy, Debug, PartialEq, Eq)]
pub enum TextRefusal {
    TooMuch,
    Malformed(u32),
}

impl TextRefusal {
    pub fn number(self) -> u32
        ensures { result ≡ text_number_of self }
    {
        match self {
            TextRefusal::TooMuch => 2,
            TextRefusal::Malformed(_) => 15,
        }
    }

    // A malformed line's number.
    pub fn place(self) -> u32
        ensures { result ≡ text_place_of self }
    {
        match self {
            TextRefusal::TooMuch => 0,
            TextRefusal::Malformed(line) => line,
        }
    }
}

// The limits of a text.
pub const MOST_BYTES: usize = 20_480;

pub const MOST_LINES: usize = 512;

// How many digits stand in front, 8 where there are more than 7.
fn digits_in_front(bytes: &[u8]) -> usize
    ensures { result ≡ length (take_while is_ascii_digit (take 8 bytes.now)) }
{
    bytes
        .iter()
        .take(8)
        .take_while(|byte| byte.is_ascii_digit())
        .count()
}

// The number that up to seven digits write. By hand, since `parse` takes a `&str`: the digits would be looked at as UTF-8 first.
fn value_of(digits: &[u8]) -> u32
    requires few { length digits.now ≤ 7 }
    requires digits { AllDigits digits.now }
    ensures { result ≡ value_at digits.now 0 (length digits.now) }
{
    let mut value = 0;
    for digit in digits {
        value = 10 * value + u32::from(*digit - b'0');
    }
    value
}

// Whether digits write a number, after a minus or not.
fn is_numeral(minus: bool, digits: &[u8]) -> bool
    ensures { result ≡ is_numeral minus (byte_at digits.now 0) (length digits.now) }
{
    if digits.is_empty() {
        return false;
    }
    if 7 < digits.len() {
        return false;
    }
    if digits[0] != b'0' {
        return true;
    }
    if 1 < digits.len() {
        return false;
    }
    !minus
}

// A number with its sign. Casts, since it is proved that they lose nothing, and `try_from` would test it.
fn with_sign(minus: bool, value: u32) -> i32
    requires { value < 2147483648 }
    ensures { result ≡ with_sign minus value }
{
    if minus { -(value as i32) } else { value as i32 }
}

impl<'a> Cursor<'a> {
    // The text from here on.
    fn rest(self) -> &'a [u8]
        ensures { result.now ≡ drop self.entry.at self.entry.text.now }
    {
        self.text.get(self.at..).unwrap_or(&[])
    }

    // The byte that stands here.
    fn byte(self) -> Option<u8>
        ensures { unwrap_or result 256 ≡ byte_at self.entry.text.now self.entry.at }
    {
        self.text.get(self.at).copied()
    }

    // The digits that stand here, up to 8 of them.
    fn digits(self) -> &'a [u8]
        ensures { Digits self.entry.text.now self.entry.at result.now }
    {
        let rest = self.rest();
        let count = digits_in_front(rest);
        &rest[..count]
    }

    // Whether a minus stands here, and where the digits begin.
    fn sign(self) -> (bool, Cursor<'a>)
        ensures minus { result.0 ≡ minus_at self.entry.text.now self.entry.at }
        ensures digits { result.1.at ≡ digits_at self.entry.text.now self.entry.at }
        ensures text { result.1.text ≡ self.entry.text }
    {
        match self.past(b'-') {
            Some(next) => (true, next),
            None => (false, self),
        }
    }

    // The number that stands here.
    pub fn number(self) -> Option<(i32, Cursor<'a>)>
        ensures says { said result ≡ number_at self.entry.text.now self.entry.at }
        ensures text { OnText self.entry.text result }
    {
        let (minus, start) = self.sign();
        let digits = start.digits();
        if !is_numeral(minus, digits) {
            return None;
        }
        let number = with_sign(minus, value_of(digits));
        let at = start.at + digits.len();
        Some((number, Cursor { at, ..self }))
    }

    // One byte that must stand here.
    pub fn past(self, byte: u8) -> Option<Cursor<'a>>
        ensures says { step_said result ≡ past_at self.entry.text.now self.entry.at byte }
        ensures text { IfSome result (λ next. next.text ≡ self.entry.text) }
    {
        if self.byte()? != byte {
            return None;
        }
        let at = self.at + 1;
        Some(Cursor { at, ..self })
    }

    // A number and the byte that must stand after it.
    fn field(self, after: u8) -> Option<(i32, Cursor<'a>)>
        ensures says { said result ≡ field_at self.entry.text.now after self.entry.at }
        ensures text { OnText self.entry.text result }
    {
        let (value, end) = self.number()?;
        let next = end.past(after)?;
        Some((value, next))
    }

    // The line that begins here: tail x, tail y, head x, head y, film.
    pub fn line(self) -> Option<(Edge, Cursor<'a>)>
        ensures says { said result ≡ line_at self.entry.text.now self.entry.at }
        ensures text { OnText self.entry.text result }
    {
        let (tail_x, second) = self.field(b' ')?;
        let (tail_y, third) = second.field(b' ')?;
        let (head_x, fourth) = third.field(b' ')?;
        let (head_y, fifth) = fourth.field(b' ')?;
        let (film, next) = fifth.field(b'\n')?;
        let tail = Point {
            x: tail_x,
            y: tail_y,
        };
        let head = Point {
            x: head_x,
            y: head_y,
        };
        Some((Edge { tail, head, film }, next))
    }
}

// How many newlines stand in a text.
fn newline_count(text: &[u8]) -> usize
    ensures { result ≡ count_by (λ b. b == 10) text.now }
{
    let mut n = 0;
    for byte in text {
        n += usize::from(*byte == b'\n');
    }
    n
}

// Whether the last line has no newline.
fn is_unended(text: &[u8]) -> bool
    ensures { result ≡ unended text.now }
{
    text.last().is_some_and(|byte| *byte != b'\n')
}

// How many lines a text has, a last one without a newline among them.
fn line_count(text: &[u8]) -> usize
    requires { length text.now ≤ 20480 }
    ensures { result ≡ line_count text.now }
{
    newline_count(text) + usize::from(is_unended(text))
}

// An edge at its place in a list.
fn put(edges: &mut [i32], place: usize, edge: Edge)
    requires { numbers_per_edge * place + 4 < length edges.old }
    ensures { edges.new ≡ placed edges.old place edge }
{
    let first = Edge::NUMBERS * place;
    let Edge { tail, head, film } = edge;
    edges[first..first + Edge::NUMBERS].copy_from_slice(&[tail.x, tail.y, head.x, head.y, film]);
}

// Line by line, to the first that is malformed. A line's number is cast, since there are so few.
fn read_lines(text: &[u8], lines: usize, edges: &mut [i32]) -> Result<usize, TextRefusal>
    requires { (lines ≤ 512) × (numbers_per_edge * lines ≤ length edges.old) }
    ensures { LinesTried text.now lines edges.old edges.new result }
{
    let mut cursor = Cursor { text, at: 0 };
    for n in 0..lines {
        let malformed = TextRefusal::Malformed((n + 1) as u32);
        let (edge, next) = cursor.line().ok_or(malformed)?;
        put(edges, n, edge);
        cursor = next;
    }
    Ok(lines)
}

// A whole text: the limits and the room first, then the lines.
pub fn read(text: &[u8], edges: &mut [i32]) -> Result<usize, TextRefusal>
    ensures { Outcome text.now edges.old edges.new result }
{
    if MOST_BYTES < text.len() {
        return Err(TextRefusal::TooMuch);
    }
    let lines = line_count(text);
    if MOST_LINES < lines {
        return Err(TextRefusal::TooMuch);
    }
    if edges.len() < Edge::NUMBERS * lines {
        return Err(TextRefusal::TooMuch);
    }
    read_lines(text, lines, edges)
}
