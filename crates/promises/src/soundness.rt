// What an accepted check says, stated where a caller can rest on it.
ghost use Rattle.sound.specs.Check.{checked};
ghost use Rattle.promises.specs.Soundness.{Checking};

// The check accepts exactly the sound volumes, each with its layout.
pub fn checking_stands()
    ensures { Checking checked }
{}
