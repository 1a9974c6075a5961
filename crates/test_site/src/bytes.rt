//! A site of few items, and its bytes.

use crate::folders::site_of;
use site_encoding::SiteToBytes;
use std::test::Fail;
use test_checks::Checks;

// One product, a tank with a roof, and a line with one gauge.
const SITE: &str = r#"format = 1
name = "S"

[[product]]
number = 1
name = "P"
factors = "factors.csv"

[[tank]]
number = 7
product = 1
shell = "insulated"
coefficient = 112
reference_temperature = "-15.00"
reference_height = 16000
roof_kg = 85000
roof_low = 1500
roof_high = 1800
table = "table.csv"
opening_litres = -1
opening_kg = -850

[[line]]
host = "h"
port = 502

[[line.gauge]]
tank = 7
unit = 17
function = 4
start = 8
quantity = 4
level = { offset = 0, words = 2, order = "low" }
temperature = { offset = 2, signed = true, mul = 10 }
valid = { offset = 3, bit = 0 }
"#;

const FACTORS: &str =
    "density,temperature,factor\n840.0,-5.00,1.00000\n840.0,15.00,0.99570\n850.0,-5.00,1.00001\n850.0,15.00,0.99580\n";

const TABLE: &str = "mm,litres\n0,0\n10,1000\n";

// The files of the site.
const FEW: [(&str, &str); 3] = [
    ("site.toml", SITE),
    ("factors.csv", FACTORS),
    ("table.csv", TABLE),
];

/// Its bytes: the head; the product; no party; the tank, its table and its opening stock; the line and its gauge.
pub const BYTES: &[u8] =
    b"\x01\x01S\x01\x00\x05\x00\x01\x00\x01\x00\x01\x00\x01\x00\x01\x00\x01\x00\x01\x00\x01\x00\x01\x00\x01\x00\
    \x01\x00\x01\x01P\x00\x00\x00\x02\x20\xd0\x21\x34\x00\x00\x00\x02\xfe\x0c\x05\xdc\
    \x00\x01\x86\xa0\x00\x01\x84\xf2\x00\x01\x86\xa1\x00\x01\x84\xfc\
    \x00\x00\
    \x01\x00\x07\x00\x01\x01\x00\x70\xfa\x24\x3e\x80\x01\x00\x01\x4c\x08\x05\xdc\x07\x08\
    \x00\x02\x00\x00\x00\x00\x00\x00\x03\xe8\
    \xff\xff\xff\xff\xff\xff\xff\xff\xff\xff\xff\xff\xff\xff\xfc\xae\
    \x01\x01h\x01\xf6\x01\x00\x07\x11\x04\x00\x08\x04\
    \x00\x02\x01\x00\x00\x00\x01\x00\x00\x00\x01\x02\x01\x02\x00\x00\x00\x0a\x00\x00\x00\x01\
    \x00\x00\x05\xdc\x01\x03\x00\x00\x01\x00\x05";

#[test]
fn a_site_has_its_bytes(rt: HostRuntime) -> Result<(), Fail> {
    let mut checks = Checks::new(&rt);
    let site = site_of(rt.alloc(), &FEW)?;
    let bytes = site.to_bytes(rt.alloc());
    drop(site);
    checks.same(bytes?.as_slice(), BYTES);
    Ok(checks.end()?)
}
