//! The texts of the faults of `Site::read`.

use site_keys::{SiteFault, SiteReadFault};
use std::test::Fail;
use test_checks::Checks;

#[test]
fn faults_have_their_words(rt: HostRuntime) -> Result<(), Fail> {
    let mut checks = Checks::new(&rt);
    let fault = SiteFault {
        code: 5,
        item: 2,
        detail: 0,
    };
    let cases = [
        (SiteReadFault::NoMemory, "no memory"),
        (SiteReadFault::Folder, "the folder failed"),
        (fault.into(), "the files describe no site"),
    ];
    for (fault, want) in cases {
        let text = format!(in rt.alloc(); "{fault}")?;
        checks.same_at(want, text.as_str(), want);
    }
    Ok(checks.end()?)
}
