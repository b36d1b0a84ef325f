//! Worked examples of ranges ahead of a gap, and of the shifts of window fields.
use sock_core::ranges::Ranges;
use sock_core::seq::window_shift;
use std::test::Fail;

// How much these additions put in front, all together; a refusal counts as `None`.
fn adds(ranges: &mut Ranges, calls: &[(usize, usize)]) -> Option<usize> {
    let mut sum = 0usize;
    for (offset, len) in calls {
        if *len == 0 || *offset > 100 || *len > 100 {
            return None;
        }
        let front = ranges.add_then_remove_front(*offset, *len).ok()?;
        sum = sum.saturating_add(front);
    }
    Some(sum)
}

#[test]
fn ranges_wrap(rt: HostRuntime) -> Result<(), Fail> {
    let mut held = Ranges::at(4_294_967_294);
    assert!(rt; adds(&mut held, &[(4, 2)]) == Some(0));
    assert!(rt; adds(&mut held, &[(0, 4)]) == Some(6));
    assert!(rt; held.front() == 4 && held.is_empty() && held.len() == 0);
    Ok(())
}

#[test]
fn window_shift_of_capacities(rt: HostRuntime) -> Result<(), Fail> {
    for (capacity, shift) in [(64, 0), (65535, 0), (65536, 1), (1 << 30, 14)] {
        assert!(rt; window_shift(capacity) == shift, "of {capacity}");
    }
    Ok(())
}
