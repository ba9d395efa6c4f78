//! Callers that run beside each other.

use crate::replaying::replayed;
use pp_program_scenes::{Crossing, SOUND};
use std::test::Fail;

#[test]
fn callers_run_side_by_side(rt: HostRuntime) -> Result<(), Fail> {
    let trace = b"0 get 1\n0 get 1\n1 get 1\n1 get 1\n";
    let told = b"0 1 absent\n0 2 absent\n1 1 absent\n1 2 absent\ncontents 0\n";
    for line in [
        "--map hash --callers 2",
        "--map list --callers 2",
        "--map tree --callers 2",
    ] {
        let gate = Crossing::new();
        let got = replayed(&rt, rt.alloc(), line, trace, &SOUND, &gate)?;
        assert!(rt; got.is(0, told, b""), "{line}");
        assert!(rt; !gate.is_overdue(), "{line}");
    }
    Ok(())
}
