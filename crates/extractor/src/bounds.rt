// The addresses at which images bind words.
ghost use Rattle.std.specs.Prelude.{◌≡◌, IfOk};
ghost use Rattle.extractor.specs.Chained as spec;

use bind_ops::Bind;
use dsc_base::NoMemory;
use indexmap::IndexSet;
use prebind::ImageStreams;
use std::alloc::Global;
use std::marker::Model;

/// The addresses at which an image binds words.
#[derive(Drop)]
pub(crate) struct Bounds {
    addresses: IndexSet<u64>,
}

impl Model for Bounds {
    ghost use Rattle.std.specs.Prelude.{ℕ, List};

    ghost Value = { List ℕ };

    ghost view = { λ b. b.addresses.keys };
}

impl Bounds {
    pub(crate) fn has(&self, address: u64) -> bool
        ensures { result ≡ spec.has self.now address }
    {
        self.addresses.contains(&address)
    }
}

/// The addresses of some binds.
fn bounds_of(alloc: Global, binds: &[Bind<'_>]) -> Result<Bounds, NoMemory>
    ensures { IfOk result (spec.AreAddresses binds.now) }
{
    let mut addresses = IndexSet::new(alloc);
    for bind in binds {
        addresses.insert_full(bind.at.address)?;
    }
    Ok(Bounds { addresses })
}

/// Those of the binds of each image.
pub(crate) fn all_bounds(
    alloc: Global,
    streams: &[ImageStreams<'_>],
) -> Result<Vec<Bounds>, NoMemory>
    ensures { IfOk result (λ v. spec.AreBounds streams.now v.items) }
{
    let mut bounds = Vec::with_capacity(alloc, streams.len())?;
    for image in streams {
        let own = bounds_of(alloc, &image.binds)?;
        bounds.push(own)?;
    }
    Ok(bounds)
}
