// Laws for callers that step over the outcomes of a scene (this project's own).
ghost use Rattle.subtree_outcome.specs.Laws.{FilesHaveNoOrphans};

/// No subtree that has the bits of a file has an orphan, whoever holds it.
pub fn files_have_no_orphan()
    ensures { FilesHaveNoOrphans }
{}
