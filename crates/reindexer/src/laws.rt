//! Laws of frames, each the contract of a function that does nothing.

ghost use Rattle.reindexer.specs.Good.{ComposedFramesAreGood, FramesStayGood, PlacesAreGood};
ghost use Rattle.reindexer.specs.Lifted.{LiftedFramesSendAlike};
ghost use Rattle.reindexer.specs.Steps.{TermFramesAreGood};
ghost use Rattle.reindexer.specs.Drops.{GoalsKeepTuples};

/// Each kind of frame keeps goodness, and the places of tuples are good.
pub fn frames_stay_good()
    ensures frames { FramesStayGood }
    ensures places { PlacesAreGood }
{}

/// Good frames after good frames are good, and so are the places to which they send.
pub fn composed_frames_are_good()
    ensures { ComposedFramesAreGood }
{}

/// The frames that terms put in front of good frames are good again.
pub fn term_frames_are_good()
    ensures { TermFramesAreGood }
{}

/// Frames seen from under one more loop send tuples as before.
pub fn lifted_frames_send_alike()
    ensures { LiftedFramesSendAlike }
{}

/// Where no drop goal is negative, no frame drops the tuple.
pub fn goals_keep_tuples()
    ensures { GoalsKeepTuples }
{}
