//! Laws over the definitions alone.

ghost use Rattle.wd_frame.specs.Bounds.{BoundsAreFrames};
ghost use Rattle.wd_frame.specs.Exclusions.{ExclusionsAreRanges};
ghost use Rattle.wd_frame.specs.Laws.{PlacesAreFrames};

/// The rows at the places of a frame are the frame as plans define it.
pub fn places_are_frames()
    ensures { PlacesAreFrames }
{}

/// The two bounds of a frame: they rise along the ordering, and between them are the places of a frame without exclusion.
pub fn bounds_are_frames()
    ensures { BoundsAreFrames }
{}

/// A frame with an exclusion has the places of two ranges, or of three where it keeps the row itself.
pub fn exclusions_are_ranges()
    ensures { ExclusionsAreRanges }
{}
