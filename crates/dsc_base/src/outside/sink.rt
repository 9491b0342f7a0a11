// A place for output.
ghost use Rattle.std.specs.Prelude.{◌≡◌, ◌≤◌, ◌++◌, ℕ, List, Option, OnOk, OnErr};
ghost use Rattle.std.specs.Option.{option_map};
ghost use Rattle.dsc_base.specs.Outside.{Rose, AppendsPrefix};

/// A sink didn't take all bytes.
#[derive(Clone, Copy, Debug, PartialEq, Eq)]
pub struct SinkFailed;

/// Takes bytes in order. A put takes no memory.
pub trait Sink {
    /// The bytes that were taken, where the sink tells them.
    ghost written: { Self → Option (List ℕ) };

    /// How often a put has failed. At `u64::MAX` it stays.
    ghost faults: { Self → ℕ };

    /// Appends the bytes. At `SinkFailed` a prefix of them was appended, perhaps none or all.
    fn put(&mut self, bytes: &[u8]) -> Result<(), SinkFailed>
        ensures all { OnOk result (written self.new ≡ option_map (λ old. old ++ bytes.now) (written self.old)) }
        ensures prefix { OnErr result (AppendsPrefix (written self.old) bytes.now (written self.new)) }
        ensures cause { OnErr result (Rose (faults self.old) (faults self.new)) }
        ensures count { faults self.old ≤ faults self.new };
}
