// Bytes as numbers: what is true of every slice of them.
ghost use Rattle.std.specs.Prelude.{◌<◌, ℕ, slice_index};
ghost use Rattle.std.specs.List.{All};
ghost use Rattle.load_model.specs.Phases.{contents};

/// Does nothing; its contract tells what is true of each slice of bytes.
pub(crate) fn are_bytes(bytes: &[u8])
    ensures all { All (λ b. b < 256) bytes.now }
    ensures each { (k : ℕ) → slice_index bytes.now k < 256 }
{
    let _ = bytes;
}

/// The same of files.
pub(crate) fn files_are_bytes(files: &[Vec<u8>])
    ensures { All (λ f. All (λ b. b < 256) f) (contents files.now) }
{
    for file in files {
        are_bytes(file);
    }
}
