// What holds of every written block, stated where a caller can rest on it.
ghost use Rattle.decoder.specs.Writing.{data_bits, data_bytes};
ghost use Rattle.decoder.specs.Laws.{Writing};

// Blocks give bits that read back as the same blocks; no other block, no write answer and no sync changes.
pub fn writing_stands()
    ensures { Writing data_bits }
{}
