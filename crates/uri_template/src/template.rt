// Templates: texts that were tested once, and are filled for many tiles.
ghost use Rattle.std.specs.Prelude.{◌≡◌, ◌<◌, ◌≤◌, ◌↔◌, ◌++◌, ◌*◌, false, IfOk, IsTrue, OnOk, OnErr, string_bytes};
ghost use Rattle.std.specs.Prelude.{is_ok, length};
ghost use Rattle.uri_template.specs.Filling.{scheme_of, tile_of};
ghost use Rattle.implicit_tiling.specs.Template.{filled, is_template, is_printable as printable};

use crate::filling::append_filled;
use crate::length::length_filled;
use std::alloc::AllocError;
use std::marker::Model;

/// The most bytes of a template.
pub const MOST_BYTES: usize = 1024;

/// A text of at most 1,024 bytes without control characters.
#[derive(Debug, Drop)]
pub struct Template {
    text: String,
}

impl Model for Template {
    ghost use Rattle.std.specs.Prelude.{List, ℕ, string_bytes, IsTrue};
    ghost use Rattle.implicit_tiling.specs.Template.{is_template};

    ghost Value = { List ℕ };

    ghost view = { λ t. string_bytes t.text };

    ghost invariant = { λ t. IsTrue (is_template (string_bytes t.text)) };
}

/// Why a text is no template.
#[derive(Clone, Copy, Debug, PartialEq, Eq)]
pub enum TemplateFault {
    /// It has more than 1,024 bytes.
    TooLong,
    /// A byte is below 0x20 or is 0x7F.
    ControlCharacter,
}

impl Template {
    /// The text as a template. Text that is no variable is no fault: a template without variables serves all tiles.
    /// A text that is both too long and has a control character is `TooLong`.
    pub fn new(text: String) -> Result<Template, TemplateFault>
        ensures template { IfOk result (λ t. t ≡ string_bytes text) }
        ensures accepted { is_ok result ≡ is_template (string_bytes text) }
        ensures too_long { (result ≡ Err TemplateFault.TooLong) ↔ (MOST_BYTES < length (string_bytes text)) }
        ensures control { (result ≡ Err TemplateFault.ControlCharacter) ↔ ((length (string_bytes text) ≤ MOST_BYTES)
            × (printable (string_bytes text) ≡ false)) }
    {
        if text.len() > MOST_BYTES {
            return Err(TemplateFault::TooLong);
        }
        if !is_printable(text.as_bytes()) {
            return Err(TemplateFault::ControlCharacter);
        }
        Ok(Template { text })
    }

    /// The text, with its variables as they stand.
    pub fn as_str(&self) -> &str
        ensures text { result.now ≡ self.now }
        ensures template { IsTrue (is_template result.now) }
    {
        self.text.as_str()
    }

    /// Appends the text with each variable replaced by its number in decimal, read once from left to right.
    /// `axes` is 2 in a quadtree, where `{z}` is no variable and the third coordinate isn't read, and 3 in an octree.
    /// An `Err` leaves `out` with the bytes that it had.
    pub fn fill(
        &self,
        axes: u32,
        level: u32,
        coords: [u32; 3],
        out: &mut String,
    ) -> Result<(), AllocError>
        requires { (2 ≤ axes) × (axes ≤ 3) }
        ensures filled { OnOk result (string_bytes out.new ≡ string_bytes out.old ++ filled (scheme_of axes) self.now
            (tile_of level coords)) }
        ensures unchanged { OnErr result (string_bytes out.new ≡ string_bytes out.old) }
    {
        let before = out.len();
        let appended = append_filled(self.text.as_str(), axes, level, coords, out);
        if appended.is_err() {
            out.truncate(before);
        }
        appended
    }

    /// The length in bytes of the text that `fill` appends, at most 10 for each byte of the template. It takes no
    /// memory.
    pub fn filled_length(&self, axes: u32, level: u32, coords: [u32; 3]) -> u64
        requires { (2 ≤ axes) × (axes ≤ 3) }
        ensures length { result ≡ length (filled (scheme_of axes) self.now (tile_of level coords)) }
        ensures short { result ≤ 10 * MOST_BYTES }
    {
        length_filled(self.text.as_str(), axes, level, coords)
    }
}

fn is_printable(bytes: &[u8]) -> bool
    ensures { result ≡ printable bytes.now }
{
    bytes.iter().all(|b| *b >= 0x20 && *b != 0x7F)
}
