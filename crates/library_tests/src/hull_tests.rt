// Nearest points in the plane, worked out by hand.
use clean_words::{Hull, SCALE};
use std::alloc::{AllocError, Global};
use std::process::Abort;
use std::test::Fail;

// Puts a vector to the hull that isn't there yet, and is then.
fn put_new(rt: &impl Abort, alloc: Global, hull: &mut Hull, corner: &[i64]) -> Result<(), Fail> {
    assert!(rt; !hull.contains(corner));
    hull.push(corner.to_vec(alloc)?)?;
    assert!(rt; hull.contains(corner));
    Ok(())
}

// The triangle, with the parts of its point that is nearest to the box.
fn nearest(rt: &impl Abort, alloc: Global, low: &[i64], high: &[i64]) -> Result<Hull, Fail> {
    let mut hull = Hull::new(alloc, low.to_vec(alloc)?, high.to_vec(alloc)?)?;
    for corner in [[0, 0], [4, 0], [0, 4]] {
        put_new(rt, alloc, &mut hull, corner.as_slice())?;
    }
    hull.descend(100);
    Ok(hull)
}

// A triangle and a box that is a point, below, inside and far above; the parts of the nearest point, and what leads to
// the box.
#[test]
fn nearest_points_of_a_triangle(rt: HostRuntime) -> Result<(), Fail> {
    let alloc = rt.alloc();
    let unit = i64::from(SCALE);
    for (low, high, parts, off) in [
        ([2, 0], [2, 0], [SCALE / 2, SCALE / 2, 0], [0, 0]),
        (
            [1, -3],
            [3, -1],
            [SCALE - SCALE / 4, SCALE / 4, 0],
            [0, -unit],
        ),
        ([5, -1], [9, 1], [0, SCALE, 0], [unit, 0]),
        ([0, 6], [0, 7], [0, 0, SCALE], [0, 2 * unit]),
    ] {
        let hull = nearest(&rt, alloc, low.as_slice(), high.as_slice())?;
        assert_eq!(rt; hull.parts(), parts.as_slice());
        assert_eq!(rt; hull.off(), off.as_slice());
    }
    Ok(())
}

// Three vectors, of which the first has no part.
fn with_unused(alloc: Global) -> Result<Hull, AllocError> {
    let mut hull = Hull::new(alloc, [2, 0].to_vec(alloc)?, [2, 0].to_vec(alloc)?)?;
    for corner in [[0, 4], [0, 0], [4, 0]] {
        hull.push(corner.to_vec(alloc)?)?;
    }
    hull.descend(100);
    Ok(hull)
}

// A hull that is made from its vectors and parts.
fn made_again(alloc: Global) -> Result<Hull, AllocError> {
    let low = [2, 0, 1].to_vec(alloc)?;
    let high = [2, 0, 1].to_vec(alloc)?;
    let mut again = Hull::new(alloc, low, high)?;
    again.push_part([0, 0, 0].to_vec(alloc)?, SCALE / 2)?;
    again.push_part([4, 0, 4].to_vec(alloc)?, SCALE / 2)?;
    Ok(again)
}

#[test]
fn what_has_no_part_is_dropped(rt: HostRuntime) -> Result<(), Fail> {
    let mut hull = with_unused(rt.alloc())?;
    assert_eq!(rt; hull.drop_unused(), Some(0));
    assert_eq!(rt; hull.drop_unused(), None);
    assert_eq!(rt; hull.count(), 2);
    assert_eq!(rt; hull.vector(1), [4, 0].as_slice());
    Ok(())
}

// A hull is made again from its vectors and parts with one coordinate more.
#[test]
fn a_hull_made_again(rt: HostRuntime) -> Result<(), Fail> {
    let again = made_again(rt.alloc())?;
    assert_eq!(rt; again.off(), [0, 0, -i64::from(SCALE)].as_slice());
    Ok(())
}
