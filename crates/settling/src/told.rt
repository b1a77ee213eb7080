//! What the queues tell of the exported blocks.
ghost use Rattle.std.specs.Prelude.{◌≡◌, All, IfOk, IsSome, length};
ghost use Rattle.settling.specs.Telling.{deliveries_of, all_deliveries};

use heap::Delivery;
use pending_queues::{Deliveries, Delivery as Outcome};
use std::alloc::{AllocError, Allocator};

/// What became of one worker's exports, of which each was taken.
fn delivered<A: Allocator>(
    alloc: A,
    exporter: u32,
    exports: &[Outcome],
) -> Result<Vec<Delivery, A>, AllocError>
    requires { All (λ e. IsSome e.taker) exports.now }
    ensures { IfOk result (λ v. v.items ≡ deliveries_of exporter exports.now) }
{
    let mut deliveries = Vec::with_capacity(alloc, exports.len())?;
    for export in exports {
        let Some(taker) = export.taker else {
            unreachable!();
        };
        deliveries.push_reserved(Delivery {
            exporter,
            position: deliveries.len() as u64,
            objects: u32::try_from(export.objects).unwrap_or(u32::MAX),
            taker,
        });
    }
    Ok(deliveries)
}

/// What became of all exports of `n` workers, of which each was taken.
pub fn all_delivered<A: Allocator + Clone>(
    alloc: A,
    told: &Deliveries<A>,
    n: u32,
) -> Result<Vec<Delivery, A>, AllocError>
    requires many { length told.now ≡ n }
    requires taken { All (λ exports. All (λ e. IsSome e.taker) exports) told.now }
    ensures { IfOk result (λ v. v.items ≡ all_deliveries told.now) }
{
    let mut deliveries = Vec::new(alloc.clone()?);
    for exporter in 0..n {
        let mut more = delivered(alloc.clone()?, exporter, told.of(exporter))?;
        deliveries.append(&mut more)?;
    }
    Ok(deliveries)
}
