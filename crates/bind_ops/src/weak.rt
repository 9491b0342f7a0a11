// The weak bind stream.
ghost use Rattle.std.specs.Prelude.{◌≡◌, Some, None, nat_eq, not, position, MatchResult};
ghost use Rattle.bind_ops.specs.Weak.{weak_break};

use dsc_base::{Rule, Site};

fn first_set(bytes: &[u8]) -> Option<usize>
    ensures { result ≡ position (λ x. not (nat_eq x 0)) bytes.now }
{
    bytes.iter().position(|x| *x != 0)
}

/// Refuses `WeakBinding` where a byte of a weak bind stream isn't 0, with the offset of the first one.
/// Linkers leave a stream of zeros where nothing is bound weakly.
pub fn check_weak(stream: &[u8]) -> Result<(), Site>
    ensures { MatchResult result (λ _. weak_break stream.now ≡ None) (λ site. weak_break stream.now ≡ Some site) }
{
    match first_set(stream) {
        Some(at) => Err(Site {
            rule: Rule::WeakBinding,
            at: at as u64,
        }),
        None => Ok(()),
    }
}
