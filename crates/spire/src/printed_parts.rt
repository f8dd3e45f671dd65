//! The text of parts of a request.
use run_questions::parts::{PartsRefusal, parts_text};
use scenario_file::Scenario;
use std::test::Fail;

#[test]
fn what_nobody_has_certified_has_no_parts(rt: HostRuntime) -> Result<(), Fail> {
    let scenario = Scenario::s1(rt.alloc())?;
    let none = matches!(
        parts_text(rt.alloc(), &scenario, &[], 2, 1),
        Err(PartsRefusal::NotCertified)
    );
    assert!(rt; none);
    Ok(())
}
