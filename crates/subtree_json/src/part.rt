// The parts of a record.
use std::marker::Model;

/// A buffer (subtree JSON format: buffers).
#[derive(Debug, Drop)]
pub struct BufferPart {
    /// Its length in bytes.
    pub length: u64,
    /// The name of its file, beside the subtree's, as it is stated; none where its bytes stand in the subtree file.
    pub uri: Option<String>,
}

impl Model for BufferPart {
    ghost use Rattle.std.specs.Prelude.{option_map, string_bytes};
    ghost use Rattle.implicit_tileset.specs.Record.{Buffer};

    ghost Value = { Buffer };

    ghost view = { λ b. record { length = b.length; uri = option_map string_bytes b.uri } };
}

/// A buffer view (subtree JSON format: buffer views). None of the numbers is checked against another.
#[derive(Clone, Copy, Debug, PartialEq, Eq)]
pub struct ViewPart {
    /// The place of its buffer among the buffers.
    pub buffer: u64,
    /// Where it begins in its buffer, in bytes.
    pub offset: u64,
    /// Its length in bytes.
    pub length: u64,
}

impl Model for ViewPart {
    ghost use Rattle.implicit_tileset.specs.Record.{BufferView};

    ghost Value = { BufferView };

    ghost view = { λ b. record { buffer = b.buffer; offset = b.offset; length = b.length } };

    ghost inverse = { λ v. record { buffer = v.buffer; offset = v.offset; length = v.length } };
}

/// An availability (subtree JSON format: availability objects).
#[derive(Clone, Copy, Debug, PartialEq, Eq)]
pub enum Availability {
    /// One bit for all.
    Constant(bool),
    /// The bits of a buffer view.
    Stream {
        /// The place of the view among the buffer views, as it is stated: maybe there is none there.
        view: u64,
        /// The number of ones among the bits, where it is stated.
        count: Option<u64>,
    },
}

/// The availability of a content (subtree JSON format: content availability).
#[derive(Clone, Copy, Debug, PartialEq, Eq)]
pub enum ContentPart {
    /// It is an availability object.
    Good(Availability),
    /// It is none, which is a fault only where the content is wanted.
    Malformed,
}
