//! All routers of an instance.

ghost use Rattle.std.specs.Prelude.{◌≡◌, ◌≤◌, ◌+◌, ◌-◌, ◌^◌, ◌++◌, length, map, min, IfOk, OnOk};
ghost use Rattle.std.specs.List.{fold, range_with_len};
ghost use Rattle.tw_model.specs.State.{opening};
ghost use Rattle.tw_model.specs.declared.limits.TheConstants.{MOST_ROUTERS};
ghost use Rattle.tw_model.specs.Summary.{end_of};
ghost use Rattle.tw_seq.specs.Thread.{handled_count};
ghost use Rattle.tw_shape.specs.Shape.{bare};

use std::alloc::{AllocError, Global};
use tw_instance::Instance;
use tw_model::RouterEnd;
use tw_router::Router;
use tw_shape::ShapeBuilder;

/// Every router of the instance as it begins, in ascending order.
pub(crate) fn opening_routers<'a>(
    alloc: Global,
    instance: &'a Instance,
) -> Result<Vec<Router<'a>>, AllocError>
    ensures { IfOk result
        (λ routers. routers.items
        ≡ map (λ r. record { net = instance.now; node = r; state = opening instance.now r }) (range_with_len 0 instance.now.nodes)) }
{
    let mut routers = Vec::new(alloc);
    for node in 0..instance.nodes() {
        routers.push(Router::new(alloc, instance, node)?)?;
    }
    Ok(routers)
}

/// How each router stands.
pub(crate) fn router_ends(
    alloc: Global,
    routers: &[Router<'_>],
) -> Result<Vec<RouterEnd>, AllocError>
    ensures { IfOk result (λ ends. ends.items ≡ map (λ r. end_of r.state) routers.now) }
{
    let mut ends = Vec::new(alloc);
    for router in routers {
        ends.push(router.end())?;
    }
    Ok(ends)
}

/// How many events the routers have handled.
pub(crate) fn count_handled(routers: &[Router<'_>]) -> u64
    requires { length routers.now ≤ MOST_ROUTERS }
    ensures { result ≡ handled_count routers.now }
{
    let mut count = 0;
    for router in routers {
        count += router.counters().handled;
    }
    count
}

/// How many rows the routers keep, or the greatest number where that is more.
fn count_rows(routers: &[Router<'_>]) -> usize
    ensures { result ≡ fold (λ n r. min (n + length r.state.rows) (2 ^ 64 - 1)) 0 routers.now }
{
    routers.iter().fold(0, |count: usize, router| {
        count.saturating_add(router.rows().len())
    })
}

/// How many paths stand in the routers' orders, or the greatest number where that is more.
fn count_paths(routers: &[Router<'_>]) -> usize
    ensures { result ≡ fold (λ n r. min (n + length r.state.order) (2 ^ 64 - 1)) 0 routers.now }
{
    routers.iter().fold(0, |count: usize, router| {
        count.saturating_add(router.order().len())
    })
}

/// Adds each router to a shape. It takes room for all of them first.
pub(crate) fn gather(builder: &mut ShapeBuilder, routers: &[Router<'_>]) -> Result<(), AllocError>
    ensures { OnOk result (builder.new ≡ record builder.old {
      routers = builder.old.routers ++ map (λ r. bare r.state) routers.now;
      sent = builder.old.sent ++ map (λ r. r.state.counters.sent) routers.now;
    }) }
{
    builder.reserve(routers.len(), count_rows(routers), count_paths(routers))?;
    for router in routers {
        let sent = router.counters().sent;
        let (rows, order, barred) = (router.rows(), router.order(), router.barred());
        builder.add_router(router.rib(), rows, order, barred, sent)?;
    }
    Ok(())
}
