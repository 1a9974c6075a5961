//! The files of a site with every key.

// Tanks, products and parties stand in falling order of number.
const SITE: &str = r#"format = 1
name = "Small site"
rounding = ["1 half", "10 zero", "1 half", "2 half", "1 half", "5 half", "1 zero", "20 half", "50 half", "100 zero", "1 half", "1 half"]

[[product]]
number = 12
name = "Gas oil"
factors = "factors.csv"

[[product]]
number = 11
name = "Kerosene"
factors = "one.csv"

[[party]]
number = 8
name = "Owner"

[[party]]
number = 7
name = "Carrier"

[[tank]]
number = 22
product = 12
shell = "bare"
coefficient = 1000
reference_temperature = "-5.5"
reference_height = 1100
strapping = "strapping.toml"
opening_litres = -1000000000
opening_kg = 1000000000

[[tank]]
number = 21
product = 11
shell = "insulated"
coefficient = 0
reference_temperature = "15.00"
reference_height = 50000
roof_kg = 10000000
roof_low = 5
roof_high = 50000
table = "table.csv"
opening_litres = 20
opening_kg = 17

[[line]]
host = "10.0.0.5"
port = 502

[[line.gauge]]
tank = 21
unit = 255
function = 3
start = 65411
quantity = 125
level = { offset = 123, words = 2, order = "low", signed = true, mul = 1000000, div = 10 }
temperature = { offset = 0 }
water = { offset = 1, order = "high", signed = false }
ambient = { offset = 2, div = 1000000 }
ambient_fixed = -10000
valid = { offset = 124, bit = 15 }
deadband_mm = 1000
deadband_centi = 999

[[line]]
host = "!~"
port = 65535

[[line.gauge]]
tank = 22
unit = 0
function = 4
start = 7
quantity = 2
level = { offset = 1 }
temperature = { offset = 0, signed = true }
"#;

const FACTORS: &str =
    "density,temperature,factor\n840.0,15.00,1.00000\n840.0,20.00,0.99570\n840.0,25.00,0.99140\n850.0,15.00,1.00000\n850.0,20.00,0.99580\n850.0,25.00,0.99150\n860.0,15.00,1.00000\n860.0,20.00,0.99590\n860.0,25.00,0.99160\n";

const ONE: &str = "density,temperature,factor\n700.0,15.00,0.99999\n";

const STRAPPING: &str = r#"bottom = [[0, 0]]

[[course]]
height = 1000
lower = "35500.0"
upper = "35500"
lower_deduction = "0.0"
upper_deduction = "0"
plate = "0.0"
paint = "0"

[[deadwood]]
low = 200
high = 700
litres = 500
"#;

const TABLE: &str = "mm,litres\n0,0\n10,1000\n20,3000\n";

/// The files of the site.
pub const FILES: [(&str, &str); 5] = [
    ("site.toml", SITE),
    ("factors.csv", FACTORS),
    ("one.csv", ONE),
    ("strapping.toml", STRAPPING),
    ("table.csv", TABLE),
];
