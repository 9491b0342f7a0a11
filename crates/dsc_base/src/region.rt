// The shared region of x86_64 and its pages. Names are those of mach/shared_region.h.
ghost use Rattle.std.specs.Prelude.{◌≡◌, ◌≤◌, ◌+◌, ◌%◌};
ghost use Rattle.dsc_base.specs.Region.{paged};

/// The page size of a cache, in bytes.
pub const PAGE: u64 = 0x1000;

/// Where the shared region starts, an address.
pub const REGION_START: u64 = 0x7FFF_2000_0000;

/// The size of the shared region, in bytes.
pub const REGION_SIZE: u64 = 0xDFE0_0000;

/// The least multiple of a page that is not below a size in bytes.
#[tactic(auto, unfolding(crate::specs::Region::paged))]
pub fn page_up(size: u64) -> u64
    requires { size ≤ 0x4000_0000_0000_0000 }
    ensures value { result ≡ paged size }
    ensures covers { size ≤ result }
    ensures close { result ≤ size + 4095 }
    ensures whole { result % 4096 ≡ 0 }
{
    (size + (PAGE - 1)) / PAGE * PAGE
}
