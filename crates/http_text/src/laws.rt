// Laws of heads and lines (this project's own).
ghost use Rattle.http_text.specs.Laws.{HeadsAreOne, HeadsStay, NoHeadsStay, EmptyLineIsRefused};

/// Where one answer for some bytes is a head, each answer for them is that head.
pub fn heads_are_one()
    ensures { HeadsAreOne }
{}

/// A whole head stays the same whatever bytes follow, so it makes no difference in which pieces they come.
pub fn heads_stay()
    ensures { HeadsStay }
{}

/// Bytes with which no head begins stay such bytes whatever follows.
pub fn no_heads_stay()
    ensures { NoHeadsStay }
{}

/// The empty line, which stands for a query of another form, is refused as no line.
pub fn the_empty_line_is_refused()
    ensures { EmptyLineIsRefused }
{}
