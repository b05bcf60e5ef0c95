// What the type of a byte says to a proof.
ghost use Rattle.disk.specs.Bytes.{Bytes};

// Each element of a slice of bytes is below 256: a call brings that to its caller's proof, and runs nothing.
pub fn are_bytes(s: &[u8])
    ensures { Bytes s.now }
{}
