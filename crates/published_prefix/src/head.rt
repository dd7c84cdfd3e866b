// The head of the published words, and its number.
ghost use Rattle.std.specs.Prelude.{◌≡◌, ◌^◌, ◌<◌};
ghost use Rattle.published_prefix.specs.Heads.{code, head_number, kind_of};

use tile_coords::WalkEnd;

// What one step and one end count in the number of a head.
const STEP: u64 = 1 << 19;

const END: u64 = 1 << 17;

/// What a head tells of how a walk stands. What a fault is stands beside the head.
#[derive(Clone, Copy, Debug, PartialEq, Eq)]
pub enum EndKind {
    Partial,
    Complete,
    Fault,
    TooMany,
}

/// How far a walk is published. It is one number, so that it is loaded and stored by one step.
#[derive(Clone, Copy, Debug, PartialEq, Eq)]
pub struct Head {
    /// How many steps were made: below 2^45.
    pub steps: u64,
    pub end: EndKind,
    /// How many words are published: up to 65,536.
    pub length: usize,
}

impl EndKind {
    /// What a head tells of an end.
    pub fn of(end: &WalkEnd) -> EndKind
        ensures { result ≡ kind_of end.now }
    {
        match end {
            WalkEnd::Partial => EndKind::Partial,
            WalkEnd::Complete => EndKind::Complete,
            WalkEnd::TooMany => EndKind::TooMany,
            WalkEnd::Fault { .. } => EndKind::Fault,
        }
    }

    fn code(self) -> u64
        ensures { result ≡ code self }
    {
        match self {
            EndKind::Partial => 0,
            EndKind::Complete => 1,
            EndKind::Fault => 2,
            EndKind::TooMany => 3,
        }
    }

    fn of_code(number: u64) -> EndKind
        requires { number < 4 }
        ensures { code result ≡ number }
    {
        match number {
            0 => EndKind::Partial,
            1 => EndKind::Complete,
            2 => EndKind::Fault,
            _ => EndKind::TooMany,
        }
    }
}

impl Head {
    /// The number of a head.
    pub fn to_number(&self) -> u64
        requires { (self.now.steps < 2 ^ 45) × (self.now.length < 2 ^ 17) }
        ensures { result ≡ head_number self.now }
    {
        self.steps * STEP + self.end.code() * END + self.length as u64
    }

    /// The head of a number, which is that of no other head.
    pub fn of_number(number: u64) -> Head
        ensures number { head_number result ≡ number }
        ensures limits { (result.steps < 2 ^ 45) × (result.length < 2 ^ 17) }
    {
        Head {
            steps: number / STEP,
            end: EndKind::of_code(number / END % 4),
            length: (number % END) as usize,
        }
    }
}
