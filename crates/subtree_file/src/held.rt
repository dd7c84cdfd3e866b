// A record beside the bytes of a buffer, and what can be wrong with the place that an availability names.
ghost use Rattle.std.specs.Prelude.{◌≡◌, option_map};
ghost use Rattle.std.specs.List.{list_any};
ghost use Rattle.implicit_tileset.specs.SubtreeFile.{view_named, buffer_named, names_no_view as names_no_view_of};
ghost use Rattle.implicit_tileset.specs.SubtreeFile.{is_out as is_out_of};
ghost use Rattle.implicit_tileset.specs.SubtreeFile.{is_short as is_short_of};
ghost use Rattle.subtree_json.specs.Seen.{availability_seen};

use crate::used::Used;
use std::marker::Model;
use subtree_json::{Availability, BufferPart, SubtreeRecord, ViewPart};

// A record with the bytes of one of its buffers.
#[derive(Drop)]
pub(crate) struct Held<'f> {
    pub parts: &'f SubtreeRecord,
    pub binary: &'f [u8],
}

impl<'f> Model for Held<'f> {
    ghost use Rattle.implicit_tileset.specs.SubtreeFile.{Held as held};

    ghost Value = { held };

    ghost view = { λ h. record { parts = h.parts.now; binary = h.binary.now } };
}

impl Held<'_> {
    // The view that an availability names, if it names one that is there.
    pub fn view_of(&self, availability: &Availability) -> Option<ViewPart>
        ensures { result ≡ view_named self.now (availability_seen availability.now) }
    {
        let parts = self.parts;
        match availability {
            Availability::Constant(_) => None,
            Availability::Stream { view, .. } => parts.views.get(*view as usize).copied(),
        }
    }

    // The buffer of a view, if it is there.
    fn buffer_of(&self, view: &ViewPart) -> Option<&BufferPart>
        ensures { option_map (λ b. b.now) result ≡ buffer_named self.now view.now }
    {
        let parts = self.parts;
        parts.buffers.get(view.buffer as usize)
    }

    fn names_no_view(&self, used: &Used) -> bool
        ensures { result ≡ names_no_view_of self.now used.now.availability }
    {
        match (&used.availability, self.view_of(&used.availability)) {
            (Availability::Constant(_), _) => false,
            (Availability::Stream { .. }, Some(view)) => self.buffer_of(&view).is_none(),
            (Availability::Stream { .. }, None) => true,
        }
    }

    // Offset and length are each up to 2^64 - 1: their sum isn't made.
    pub fn is_out(&self, used: &Used) -> bool
        ensures { result ≡ is_out_of self.now used.now.availability }
    {
        let Some(view) = self.view_of(&used.availability) else {
            return false;
        };
        match self.buffer_of(&view) {
            Some(buffer) => {
                view.offset > buffer.length
                    || view.length > buffer.length - view.offset
                    || buffer.length > self.binary.len() as u64
            }
            None => false,
        }
    }

    pub fn is_short(&self, used: &Used) -> bool
        ensures { result ≡ is_short_of self.now used.now }
    {
        match self.view_of(&used.availability) {
            Some(view) => view.length < used.needed.div_ceil(8),
            None => false,
        }
    }

    pub fn any_names_no_view(&self, used: &[Used]) -> bool
        ensures { result ≡ list_any (λ u. names_no_view_of self.now u.availability) used.now }
    {
        used.iter().any(|one| self.names_no_view(one))
    }
}
