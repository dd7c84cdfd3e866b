// Laws of the turns of a replay (this project's own).
ghost use Rattle.replay_machine.specs.Laws.{AnswersAreOfTheFrames, FramesAndPassesStay, NoChangeIsTold};
ghost use Rattle.replay_machine.specs.Laws.{PagesAreOfTheAnswer, ShownTilesAreOfTheAnswer};

/// What is answered to one who asks for a key is an answer of the frames.
pub fn what_is_asked_is_of_the_frames<K, V>()
    ensures { AnswersAreOfTheFrames K V }
{}

/// A reply that tells of no change leaves frames, cursors and passes as they were.
pub fn a_quiet_reply_changes_nothing<R>()
    ensures { NoChangeIsTold R }
{}

/// Frames and passes stay as many as they were.
pub fn frames_and_passes_stay<R>()
    ensures { FramesAndPassesStay R }
{}

/// The tiles that a cursor shows are the first ones of the answer.
pub fn shown_tiles_are_of_the_answer()
    ensures { ShownTilesAreOfTheAnswer }
{}

/// The tiles of a page are those of the answer at its places.
pub fn pages_are_of_the_answer()
    ensures { PagesAreOfTheAnswer }
{}
