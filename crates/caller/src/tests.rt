//! Two ends and a list of calls run, where there is memory; in the second list packets keep their order.
use kinds::Digit;
use network::Side;
use samples::{sample, sample_in_order};
use std::test::Fail;
use trunk::WhichKind;
use type3::Either;

#[test]
fn the_sample_runs(rt: HostRuntime) -> Result<(), Fail> {
    let run = sample(rt.alloc())?;
    assert_eq!(rt; run.answers.len(), 27);
    let heard = run.ends.end(Side::Far).in_force(WhichKind::First);
    assert_eq!(rt; heard, Some(Either::First(Digit::of_key('7', -10)?)));
    Ok(())
}

#[test]
fn the_sample_in_order_runs(rt: HostRuntime) -> Result<(), Fail> {
    let run = sample_in_order(rt.alloc())?;
    assert_eq!(rt; run.answers.len(), 20);
    let heard = run.ends.end(Side::Far).in_force(WhichKind::First);
    assert_eq!(rt; heard, Some(Either::First(Digit::of_key('5', -10)?)));
    Ok(())
}
