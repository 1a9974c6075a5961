//! Texts that are no factor file.

use farm_vcf::{Vcf, VcfFault};
use std::test::Fail;
use test_checks::{Checks, shared};

#[test]
fn a_text_that_is_no_factor_file_is_refused(rt: HostRuntime) -> Result<(), Fail> {
    let mut checks = Checks::new(&rt);
    let cases: [(&str, &[u8], VcfFault); 4] = [
        ("no byte", b"", VcfFault::NotGrid(1)),
        (
            "records of two lengths",
            b"d,t,f\nx,15.00,0.99100\na,b\n",
            VcfFault::Csv,
        ),
        (
            "a temperature of letters",
            b"d,t,f\n840.0,15.00,0.99100\n840.0,x,0.99\n",
            VcfFault::BadField(2),
        ),
        (
            "a second block without its last row",
            b"d,t,f\n840.0,15.00,0.991\n840.0,20.00,0.987\n850.0,15.00,0.992\n",
            VcfFault::NotGrid(4),
        ),
    ];
    for (name, text, want) in cases {
        let fault = Vcf::read(rt.alloc(), text).err();
        checks.same_at(name, shared(fault), Some(want));
    }
    Ok(checks.end()?)
}
