//! What a header says as an input sets it, and what names hold.
use exercise_text::{header_as_set, read_header, value_by, wanted_at_end, wanted_at_start};
use pardo_text::{PardoFault, Program};
use std::alloc::Global;
use std::rt::HostRuntime;
use std::test::Fail;

const GIVEN: &[u8] =
    b"pardo 1\nrule crew\nconst n = 4\nprocs i < n\nshared A[n] = 1, ...\nshared s = 5\n";

fn header_set(alloc: Global, words: &[u8]) -> Result<(Program, u32), PardoFault> {
    let set = header_as_set(alloc, GIVEN, words)?;
    let program = read_header(alloc, set.as_slice(), b"0")?;
    let value = value_by(alloc, set.as_slice(), b"6 * lg(n) + 4")?;
    Ok((program, value))
}

#[test]
fn headers_say_values(rt: HostRuntime) -> Result<(), Fail> {
    let alloc = rt.alloc();
    let Ok((program, value)) = header_set(alloc, b"n=8 A=any:7:100 -> s=9") else {
        return Ok(assert!(rt; false));
    };
    assert!(rt; value == 22);
    let wanted = wanted_at_start(alloc, b"s A", program.arrays())?;
    assert!(rt; wanted.len() == 2);
    let values = wanted[1].values.as_slice();
    assert!(rt; values.len() == 8);
    assert!(rt; values[0] == 23);
    let cells = [4, 3, 2, 1, 4, 3, 2, 1, 7];
    let wanted = wanted_at_end(alloc, b"A s", program.arrays(), &cells)?;
    assert!(rt; wanted.len() == 2);
    assert!(rt; wanted[1].values.as_slice() == [7].as_slice());
    Ok(())
}

#[test]
fn bad_headers_are_refused(rt: HostRuntime) {
    let alloc = rt.alloc();
    assert!(rt; header_set(alloc, b"n=0").is_err());
    assert!(rt; header_set(alloc, b"A=1,2").is_err());
    assert!(rt; header_set(alloc, b"n=2 A=1,2").is_ok());
}
