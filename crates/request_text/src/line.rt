// Request lines: LEVEL LO HI.
ghost use Rattle.std.specs.Prelude.{◌≡◌, ◌==◌, ◌<◌, ◌≤◌, ◌&&◌, ◌∷◌, [], Some, None, IfSome, is_some, position};
ghost use Rattle.std.specs.Prelude.{option_map, slice_index, if◌then◌else◌, length};
ghost use Rattle.std.specs.List.{list_all};
ghost use Rattle.std.specs.Char.{is_ascii_digit};
ghost use Rattle.implicit_tiling.specs.Request.{number as number_in, coordinates_in, has_digits as digits_in};
ghost use Rattle.implicit_tiling.specs.Request.{begins_well as begins, line_of_words, line_of as line_in};
ghost use Rattle.implicit_tiling.specs.Request.{plan_of_line};
ghost use Rattle.request_text.specs.Lines.{line_seen, coordinates_seen, places_of, refusal_number, IsSplitOnce};

use tile_coords::{Plan, Region, RegionFault, Scheme};
use tileset_json::Layout;

/// Two or three numbers, joined by single commas.
#[derive(Clone, Copy, Debug, PartialEq, Eq)]
enum Coordinates {
    Two(u32, u32),
    Three(u32, u32, u32),
}

/// The numbers of a request line: a level and the two corners of a box.
#[derive(Clone, Copy, Debug, PartialEq, Eq)]
pub struct Line {
    level: u32,
    lo: Coordinates,
    hi: Coordinates,
}

/// Why a line has no plan (this project's own). The first that holds, in this order, is the refusal of the line.
#[derive(Clone, Copy, Debug, PartialEq, Eq)]
pub enum Refusal {
    /// The bytes aren't a number, a list and a list, joined by single spaces.
    NotALine,
    /// A list hasn't as many numbers as the scheme has axes.
    OtherAxes,
    /// The level isn't below the levels of the layout.
    LevelHigh,
    /// A number of the first list is above its partner in the second.
    BoxOrder,
    /// A number of the second list is 2^level or more.
    BoxOut,
}

impl Refusal {
    /// The number of the refusal, 1 to 5.
    pub fn number(self) -> u64
        ensures { result ≡ refusal_number self }
    {
        match self {
            Refusal::NotALine => 1,
            Refusal::OtherAxes => 2,
            Refusal::LevelHigh => 3,
            Refusal::BoxOrder => 4,
            Refusal::BoxOut => 5,
        }
    }
}

/// The plan of a request line, or the number of the first rule that refuses it (1 to 5, by `Refusal`).
pub fn parse_line(layout: &Layout, line: &[u8]) -> Result<Plan, u64>
    ensures { result ≡ plan_of_line layout.now.scheme layout.now.levels (line_in line.now) }
{
    let Some(line) = read_line(line) else {
        return Err(Refusal::NotALine.number());
    };
    line.plan(layout)
}

impl Line {
    /// The plan of the line over a layout, or the number of the first of the rules 2 to 5 that refuses it.
    pub fn plan(&self, layout: &Layout) -> Result<Plan, u64>
        ensures { result ≡ plan_of_line layout.now.scheme layout.now.levels (Some (line_seen self.now)) }
    {
        plan_of(layout.scheme, layout.levels, self)
    }
}

// The plan of a line that was read, or the number of the first of the rules 2 to 5.
fn plan_of(scheme: Scheme, levels: u32, line: &Line) -> Result<Plan, u64>
    requires { levels ≤ 32 }
    ensures { result ≡ plan_of_line scheme levels (Some (line_seen line.now)) }
{
    let (Some(lo), Some(hi)) = (places(scheme, line.lo), places(scheme, line.hi)) else {
        return Err(Refusal::OtherAxes.number());
    };
    match Region::new(scheme, levels, line.level, lo, hi) {
        Ok(region) => Ok(Plan { scheme, region }),
        Err(RegionFault::LevelHigh) => Err(Refusal::LevelHigh.number()),
        Err(RegionFault::BoxOrder) => Err(Refusal::BoxOrder.number()),
        Err(RegionFault::BoxOut) => Err(Refusal::BoxOut.number()),
    }
}

// The coordinates with a third place, where they are as many as the scheme has axes.
fn places(scheme: Scheme, coordinates: Coordinates) -> Option<[u32; 3]>
    ensures { result ≡ places_of scheme (coordinates_seen coordinates) }
{
    match (scheme, coordinates) {
        (Scheme::Quad, Coordinates::Two(x, y)) => Some([x, y, 0]),
        (Scheme::Oct, Coordinates::Three(x, y, z)) => Some([x, y, z]),
        _ => None,
    }
}

// The numbers of a line, where it has the form of one.
fn read_line(line: &[u8]) -> Option<Line>
    ensures { option_map line_seen result ≡ line_in line.now }
{
    let (level, boxes) = cut(line, b' ')?;
    let (lo, hi) = cut(boxes, b' ')?;
    if cut(hi, b' ').is_some() {
        return None;
    }
    line_of(level, lo, hi)
}

/// The line of three words, LEVEL LO HI. None exactly where one hasn't its form.
pub fn line_of(level: &[u8], lo: &[u8], hi: &[u8]) -> Option<Line>
    ensures { option_map line_seen result ≡ line_of_words (level.now ∷ lo.now ∷ hi.now ∷ []) }
{
    let level = read_number(level)?;
    let lo = read_coordinates(lo)?;
    let hi = read_coordinates(hi)?;
    Some(Line { level, lo, hi })
}

/// Whether a text is a number: `0`, or a digit 1 to 9 followed by digits, at most 4,294,967,295.
pub fn is_number(text: &[u8]) -> bool
    ensures { result ≡ is_some (number_in text.now) }
{
    read_number(text).is_some()
}

/// Whether a text is two or three numbers joined by single commas.
pub fn is_coordinates(text: &[u8]) -> bool
    ensures { result ≡ is_some (coordinates_in text.now) }
{
    read_coordinates(text).is_some()
}

/// The number of a text of the form of `is_number`. None for any other text.
pub fn read_number(text: &[u8]) -> Option<u32>
    ensures { result ≡ number_in text.now }
{
    if !has_digits(text) {
        return None;
    }
    let Ok(text) = str::from_utf8(text) else {
        return None;
    };
    text.parse::<u32>().ok()
}

// Digits without a leading zero.
fn has_digits(text: &[u8]) -> bool
    ensures { result ≡ digits_in text.now }
{
    begins_well(text) && are_digits(text)
}

fn begins_well(text: &[u8]) -> bool
    ensures { result ≡ begins text.now }
{
    if text.is_empty() {
        return false;
    }
    text.len() == 1 || text[0] != b'0'
}

fn are_digits(text: &[u8]) -> bool
    ensures { result ≡ list_all is_ascii_digit text.now }
{
    text.iter().all(|b| b.is_ascii_digit())
}

fn read_coordinates(text: &[u8]) -> Option<Coordinates>
    ensures { option_map coordinates_seen result ≡ coordinates_in text.now }
{
    let (x, rest) = cut(text, b',')?;
    let Some((y, z)) = cut(rest, b',') else {
        return Some(Coordinates::Two(read_number(x)?, read_number(rest)?));
    };
    if cut(z, b',').is_some() {
        return None;
    }
    Some(Coordinates::Three(read_number(x)?, read_number(y)?, read_number(z)?))
}

/// What stands before and behind the first separator of a text. None where it has none.
pub fn cut(text: &[u8], separator: u8) -> Option<(&[u8], &[u8])>
    ensures { IsSplitOnce separator text.now result }
{
    let at = first_separator(text, separator)?;
    Some((&text[..at], &text[at + 1..]))
}

fn first_separator(text: &[u8], separator: u8) -> Option<usize>
    ensures place { result ≡ position (λ c. c == separator) text.now }
    ensures within { IfSome result (λ at. at < length text.now) }
{
    text.iter().position(|b| *b == separator)
}
