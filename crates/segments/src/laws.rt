// The laws of a reading. Each is proved of the definitions that `build_segments` is proved equal to.
ghost use Rattle.segments.specs.Laws.{AlikeReadSame, ContoursAlone, LoneTold};
ghost use Rattle.segments.specs.Rows.{ContoursFall};
ghost use Rattle.segments.specs.Starts.{StartsTold};
ghost use Rattle.segments.specs.Told.{SegmentsTold};
ghost use Rattle.segments.specs.Tried.{SpikeTried, BoxTried};

// A contour's segments, indices counted from its start, are a function of its points' places, kinds and directions and of the units.
pub fn contours_stand_alone()
    ensures alike { AlikeReadSame }
    ensures alone { ContoursAlone }
{}

// What a contour's segments are, in words: where the walk begins, which rows of points it falls into and which of
// them are merged, what a segment tells of its points, and the one segment of a lone point.
pub fn segments_stand()
    ensures starts { StartsTold }
    ensures rows { ContoursFall }
    ensures told { SegmentsTold }
    ensures lone { LoneTold }
{}

// Tried values.
pub fn tried_stands()
    ensures spike { SpikeTried }
    ensures boxed { BoxTried }
{}
