//! A program that is admitted without its model: no command does that.

use rc_admit::admitted::Admitted;
use rc_admit::fault::AdmitFault;
use rc_read::read_program;
use std::test::Fail;

const OVER_CREDITS: &str = "ringcheck 1\nring 4\nthread t0 holds c:9 {\n}\n";

#[test]
fn a_program_is_refused(rt: HostRuntime) -> Result<(), Fail> {
    let program = read_program(rt.alloc(), OVER_CREDITS.as_bytes())?;
    let refused = match Admitted::from_program(rt.alloc(), program) {
        Err(AdmitFault::Refused(refusal)) => Some((refusal.line, refusal.cause.number())),
        _ => None,
    };
    assert_eq!(rt; refused, Some((3, 18)));
    Ok(())
}
