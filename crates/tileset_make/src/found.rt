// What a survey finds.
use std::marker::Model;

/// What a survey of a tileset that is made in memory finds (this project's own).
#[derive(Clone, Copy, Debug, PartialEq, Eq)]
pub struct Survey {
    /// The files, `tileset.json` among them.
    pub files: u64,
    /// The tiles.
    pub tiles: u64,
    /// The tiles of the answer for all of them: at most 65,536.
    pub listed: u64,
    /// The contents of the tiles of that answer.
    pub contents: u64,
    /// Whether there are more tiles than an answer holds.
    pub more: bool,
}

impl Model for Survey {
    ghost use Rattle.tileset_make.specs.Recipes.{Found};

    ghost Value = { Found };

    ghost view = { λ s. record {
      files = s.files;
      tiles = s.tiles;
      listed = s.listed;
      contents = s.contents;
      more =
          s.more;
    } };

    ghost inverse = { λ v. record {
      files = v.files;
      tiles = v.tiles;
      listed = v.listed;
      contents = v.contents;
      more =
          v.more;
    } };
}
