// Laws of the texts of layouts (OGC 22-025r4, implicit tiling: implicit root tile, subtrees).
ghost use Rattle.tileset_write.specs.LayoutText.{LayoutTextsReadBack, LayoutTextsAreShort};

/// The text of a layout states the layout, without a fault.
pub fn a_layout_text_reads_back()
    ensures { LayoutTextsReadBack }
{}

/// The text of a layout has at most the bytes of a file.
pub fn a_layout_text_is_short()
    ensures { LayoutTextsAreShort }
{}
