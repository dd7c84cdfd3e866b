// Plans: what a walk is asked for.
use crate::region::Region;
use implicit_tiling::Scheme;
use std::marker::Model;

/// A region of a scheme (this project's own).
#[derive(Clone, Copy, Debug, PartialEq, Eq, Hash)]
pub struct Plan {
    pub scheme: Scheme,
    pub region: Region,
}

impl Model for Plan {
    ghost use Rattle.implicit_tiling.specs.Region.{Plan as plan};

    ghost Value = { plan };

    ghost view = { λ p. record { scheme = p.scheme; region = p.region } };

    ghost inverse = { λ v. record { scheme = v.scheme; region = v.region } };
}
