// Failures that are planned for later calls of a store in memory.
ghost use Rattle.std.specs.Prelude.{◌≡◌, take};
ghost use Rattle.dsc_base.specs.InMemory.{due, after_call};

/// A failure that is planned for one call.
#[derive(Clone, Copy, Debug, PartialEq, Eq)]
pub struct Planned {
    /// Which call from now on fails: 1 is the next one, and 0 has been.
    pub turn: u64,
    /// How many bytes it takes, if it is a put.
    pub taken: u64,
}

/// How many bytes the next call takes, if it is to fail. The first plan counts.
pub(crate) fn next_failure(planned: &[Planned]) -> Option<u64>
    ensures { result ≡ due planned.now }
{
    planned
        .iter()
        .find(|plan| plan.turn == 1)
        .map(|plan| plan.taken)
}

/// Counts one call.
pub(crate) fn count_call(planned: &mut [Planned])
    ensures { planned.new ≡ after_call planned.old }
{
    for plan in planned.iter_mut() {
        plan.turn = plan.turn.saturating_sub(1);
    }
}

/// The first `count` bytes, or all where there are fewer.
pub(crate) fn first_bytes(bytes: &[u8], count: u64) -> &[u8]
    ensures { result.now ≡ take count bytes.now }
{
    if count < bytes.len() as u64 {
        &bytes[..count as usize]
    } else {
        bytes
    }
}
