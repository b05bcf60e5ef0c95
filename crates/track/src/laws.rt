// What holds of frames and blocks on every circle, stated where a caller can rest on it.
ghost use Rattle.std.specs.Prelude.{true, false};
ghost use Rattle.track.specs.Circles.{turned};
ghost use Rattle.track.specs.Laws.{Turning, Cutting};

// Where a circle begins alters no frame but for which comes first, and no block.
pub fn turning_stands()
    ensures { Turning turned }
{}

// Frames are what syncs cut a circle into.
pub fn cutting_stands()
    ensures { Cutting true }
{}
