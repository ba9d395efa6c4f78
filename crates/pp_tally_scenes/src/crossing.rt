//! Callers that claim beside each other.

use crate::tallying::tallied;
use pp_program_scenes::{Crossing, SOUND};
use std::test::Fail;

#[test]
fn callers_claim_side_by_side(rt: HostRuntime) -> Result<(), Fail> {
    let input = vec![in rt.alloc(); 0u8; 4097]?;
    for line in [
        "--map hash --callers 2",
        "--map list --callers 2",
        "--map tree --callers 2",
    ] {
        let gate = Crossing::new();
        let got = tallied(&rt, rt.alloc(), line, &input, &SOUND, &gate)?;
        assert!(rt; got.is(0, b"bytes 4097\npieces 2\n0 4097\n", b""), "{line}");
        assert!(rt; !gate.is_overdue(), "{line}");
    }
    Ok(())
}
