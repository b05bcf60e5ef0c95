// What holds of bits laid on a circle, stated where a caller can rest on it.
ghost use Rattle.track.specs.Laying.{laid_on};
ghost use Rattle.laying.specs.Laws.{Replacing};

// Replacing the bits of a frame keeps every sync and every other frame.
pub fn replacing_stands()
    ensures { Replacing laid_on }
{}
