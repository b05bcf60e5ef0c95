// What holds of extracting on every disk, stated where a caller can rest on it.
ghost use Rattle.std.specs.Prelude.{[]};
ghost use Rattle.files.specs.Paths.{path_of};
ghost use Rattle.files.specs.Laws.{PathOnly};

// Extracting looks at nothing but the path of the name.
pub fn path_stands()
    ensures { PathOnly path_of }
{}
