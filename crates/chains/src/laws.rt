// What holds of following on every disk, stated where a caller can rest on it.
ghost use Rattle.chains.specs.Chains.{most};
ghost use Rattle.chains.specs.Laws.{BoundEnough};

// No route is cut short by the bound on its blocks, whatever the disk holds.
pub fn bound_stands()
    ensures { BoundEnough most }
{}
