// What holds of every aligned circle, stated where a caller can rest on it.
ghost use Rattle.std.specs.Prelude.{length};
ghost use Rattle.track.specs.Aligning.{first_start};
ghost use Rattle.aligner.specs.Laws.{Aligning};

// A circle turned to its first start begins right after a sync, if it has any, and keeps its blocks.
pub fn aligned_stands()
    ensures { Aligning first_start }
{}
