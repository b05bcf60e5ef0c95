// Figures from the published descriptions of the disk, proved of our definitions.
ghost use Rattle.std.specs.List.{AllByRecursion};
ghost use Rattle.std.specs.Prelude.{◌∷◌, Some};
ghost use Rattle.promises.specs.Figures.{Holds, figures, numbered};

// Each figure of the list holds of the definitions that the contracts cite.
pub fn figures_stand()
    ensures { AllByRecursion Holds figures }
{}
