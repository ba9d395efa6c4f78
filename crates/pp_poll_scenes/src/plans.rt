//! A plan behind a trace.

use pp_plans::{parse_plan, part};
use std::test::Fail;

#[test]
fn a_plan_stands_behind_the_line_that_names_it(rt: HostRuntime) -> Result<(), Fail> {
    let input = b"1 get 7\n# schedule\n\t schedule \r\n1 2\n\n# 0 9\n0 1\n".as_slice();
    let parts = part(input);
    assert_eq!(rt; parts.trace_end, 19);
    assert_eq!(rt; parts.plan_start, 32);
    assert_eq!(rt; parts.lines, 3);
    let plan = parse_plan(rt.alloc(), &input[parts.plan_start..], parts.lines, 2)?;
    assert_eq!(rt; plan.as_slice(), [1, 1, 0].as_slice());
    Ok(())
}
