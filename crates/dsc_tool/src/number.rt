// Numbers on the command line.
ghost use Rattle.std.specs.Prelude.{◌≡◌, ◌≤◌, option_map};
ghost use Rattle.dsc_tool.specs.WordNumbers as spec;

/// The most inputs that a command takes, and the most dylibs of a trial.
pub(crate) const MOST_INPUTS: usize = 4096;

/// The number of jobs that the option's value tells, and 1 where there is none.
pub(crate) fn jobs_of(value: Option<&str>) -> Option<u32>
    ensures { result ≡ spec.jobs_of (option_map (λ text. text.now) value.entry) }
{
    let Some(text) = value else {
        return Some(1);
    };
    let jobs = number_of(text.as_bytes(), 2)?;
    from_1_to(64, jobs)
}

/// The seed of a trial.
pub(crate) fn seed_of(text: &str) -> Option<u64>
    ensures { result ≡ spec.seed_of text.now }
{
    let seed = number_of(text.as_bytes(), 20)?;
    if seed < 0x1_0000_0000_0000_0000 {
        Some(seed as u64)
    } else {
        None
    }
}

/// How many dylibs a trial has.
pub(crate) fn count_of(text: &str) -> Option<u32>
    ensures { result ≡ spec.count_of text.now }
{
    let count = number_of(text.as_bytes(), 4)?;
    from_1_to(MOST_INPUTS as u32, count)
}

fn from_1_to(most: u32, number: u128) -> Option<u32>
    ensures { result ≡ spec.from_1_to most number }
{
    if 1 <= number && number <= u128::from(most) {
        Some(number as u32)
    } else {
        None
    }
}

/// The number that 1 to so many decimal digits spell.
fn number_of(digits: &[u8], most: usize) -> Option<u128>
    requires { most ≤ 20 }
    ensures { result ≡ spec.number_of most digits.now }
{
    if digits.is_empty() || digits.len() > most {
        return None;
    }
    let mut number = 0;
    for byte in digits {
        number = 10 * number + u128::from(digit(*byte)?);
    }
    Some(number)
}

fn digit(byte: u8) -> Option<u8>
    ensures { result ≡ spec.digit byte }
{
    if 48 <= byte && byte <= 57 {
        Some(byte - 48)
    } else {
        None
    }
}
