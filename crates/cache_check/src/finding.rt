// Findings of a cache.
ghost use Rattle.std.specs.Prelude.{◌≡◌};
ghost use Rattle.dsc_base.specs.declared.fault.ViewFault.TheVariants.{Broken};
ghost use Rattle.cache_header.specs.Findings.{finding};
ghost use Rattle.cache_check.specs.Steps.Faults.{in_view};

use dsc_base::{Fault, Finding, FindingKind, ViewFault};

/// A finding, of image 0 where it belongs to none.
pub(crate) fn found(kind: FindingKind, image: u32, at: u64) -> ViewFault
    ensures { result ≡ Broken (finding kind image at) }
{
    ViewFault::Broken(Finding { kind, image, at })
}

/// A rule that an image breaks as a finding, at the rule's number.
pub(crate) fn rule_found(kind: FindingKind, image: u32, fault: Fault) -> ViewFault
    ensures { result ≡ in_view kind image fault }
{
    match fault {
        Fault::Broken(site) => found(kind, image, u64::from(site.rule.number())),
        Fault::Memory => ViewFault::Memory,
    }
}
