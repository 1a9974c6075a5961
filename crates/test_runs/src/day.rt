//! A day of `batch` on the row site: a receipt, a transfer, a delivery and a settlement, and then the stock book.

use crate::batch_rows::check_batch;
use std::test::Fail;
use test_checks::Checks;

// The ticket of the receipt at place 5.
const RECEIPT: &str =
    r#"{"movement":3,"number":1,"party":7,"place":5,"reverses":0,"sides":[{"closing":{"ctsh":100022,"fra":0,"fw":0,"gov":9001980,"gsv":8925463,"mass":7586644,"nsv":8925463,"swv":0,"tov":9000000,"vcf":99150},"moved":{"gsv":925463,"kg":786644,"nsv":925463,"swv":0},"opening":{"ctsh":100000,"fra":0,"fw":0,"gov":8000000,"gsv":8000000,"mass":6800000,"nsv":8000000,"swv":0,"tov":8000000,"vcf":100000},"tank":101,"way":"in"}]}"#;

// The ticket of the transfer at place 11.
const TRANSFER: &str =
    r#"{"movement":8,"number":2,"party":0,"place":11,"reverses":0,"sides":[{"closing":{"ctsh":100022,"fra":0,"fw":0,"gov":8501870,"gsv":8429604,"mass":7165163,"nsv":8429604,"swv":0,"tov":8500000,"vcf":99150},"moved":{"gsv":495859,"kg":421481,"nsv":495859,"swv":0},"opening":{"ctsh":100022,"fra":0,"fw":0,"gov":9001980,"gsv":8925463,"mass":7586644,"nsv":8925463,"swv":0,"tov":9000000,"vcf":99150},"tank":101,"way":"out"},{"closing":{"ctsh":100000,"fra":0,"fw":0,"gov":5495000,"gsv":5495000,"mass":4670750,"nsv":5495000,"swv":0,"tov":5495000,"vcf":100000},"moved":{"gsv":495000,"kg":420750,"nsv":495000,"swv":0},"opening":{"ctsh":100000,"fra":0,"fw":0,"gov":5000000,"gsv":5000000,"mass":4250000,"nsv":5000000,"swv":0,"tov":5000000,"vcf":100000},"tank":102,"way":"in"}]}"#;

// The ticket of the delivery at place 14.
const DELIVERY: &str =
    r#"{"movement":12,"number":3,"party":8,"place":14,"reverses":0,"sides":[{"closing":{"ctsh":100000,"fra":0,"fw":0,"gov":4000000,"gsv":4000000,"mass":3400000,"nsv":4000000,"swv":0,"tov":4000000,"vcf":100000},"moved":{"gsv":1495000,"kg":1270750,"nsv":1495000,"swv":0},"opening":{"ctsh":100000,"fra":0,"fw":0,"gov":5495000,"gsv":5495000,"mass":4670750,"nsv":5495000,"swv":0,"tov":5495000,"vcf":100000},"tank":102,"way":"out"}]}"#;

// The reversal of the ticket at place 14, after the day.
const REVERSAL: &str =
    r#"{"movement":12,"number":4,"party":8,"place":17,"reverses":14,"sides":[{"closing":{"ctsh":100000,"fra":0,"fw":0,"gov":4000000,"gsv":4000000,"mass":3400000,"nsv":4000000,"swv":0,"tov":4000000,"vcf":100000},"moved":{"gsv":-1495000,"kg":-1270750,"nsv":-1495000,"swv":0},"opening":{"ctsh":100000,"fra":0,"fw":0,"gov":5495000,"gsv":5495000,"mass":4670750,"nsv":5495000,"swv":0,"tov":5495000,"vcf":100000},"tank":102,"way":"out"}]}"#;

// The sixteen commands of the day.
const DAY: &[(&str, &str)] = &[
    (
        r#"{"do":"sample","account":1,"key":1,"tank":101,"density":8500,"sw":0}"#,
        r#"{"place":1}"#,
    ),
    (
        r#"{"do":"gauge","account":1,"key":2,"tank":101,"level":8000,"water":0,"temperature":1500,"ambient":1500}"#,
        r#"{"place":2}"#,
    ),
    (
        r#"{"do":"open","account":1,"key":3,"way":"receipt","tank":101,"party":7,"reading":2,"sample":1}"#,
        r#"{"place":3}"#,
    ),
    (
        r#"{"do":"gauge","account":1,"key":4,"tank":101,"level":9000,"water":0,"temperature":2500,"ambient":1500}"#,
        r#"{"place":4}"#,
    ),
    (
        r#"{"do":"close","account":1,"key":5,"movement":3,"reading":4,"sample":1}"#,
        RECEIPT,
    ),
    (
        r#"{"do":"sample","account":1,"key":6,"tank":102,"density":8500,"sw":0}"#,
        r#"{"place":6}"#,
    ),
    (
        r#"{"do":"dip","account":1,"key":7,"tank":102,"kind":"innage","tapes":[5000,5000],"water":[],"temperatures":[1500],"ambient":1500}"#,
        r#"{"place":7}"#,
    ),
    (
        r#"{"do":"open","account":1,"key":8,"way":"transfer","from":101,"to":102,"from_reading":4,"from_sample":1,"to_reading":7,"to_sample":6}"#,
        r#"{"place":8}"#,
    ),
    (
        r#"{"do":"dip","account":1,"key":9,"tank":101,"kind":"outage","tapes":[7500,7500],"water":[],"temperatures":[2500,2500,2500],"ambient":1500}"#,
        r#"{"place":9}"#,
    ),
    (
        r#"{"do":"dip","account":1,"key":10,"tank":102,"kind":"innage","tapes":[5495,5495],"water":[],"temperatures":[1500],"ambient":1500}"#,
        r#"{"place":10}"#,
    ),
    (
        r#"{"do":"close","account":1,"key":11,"movement":8,"reading":9,"sample":1,"to_reading":10,"to_sample":6}"#,
        TRANSFER,
    ),
    (
        r#"{"do":"open","account":1,"key":12,"way":"delivery","tank":102,"party":8,"reading":10,"sample":6}"#,
        r#"{"place":12}"#,
    ),
    (
        r#"{"do":"gauge","account":1,"key":13,"tank":102,"level":4000,"water":0,"temperature":1500,"ambient":1500}"#,
        r#"{"place":13}"#,
    ),
    (
        r#"{"do":"close","account":1,"key":14,"movement":12,"reading":13,"sample":6}"#,
        DELIVERY,
    ),
    (
        r#"{"do":"gauge","account":1,"key":15,"tank":101,"level":8498,"water":0,"temperature":2500,"ambient":1500}"#,
        r#"{"place":15}"#,
    ),
    (
        r#"{"do":"settle","account":1,"key":16,"tank":101,"reading":15,"sample":1}"#,
        r#"{"gain":{"kg":-1685,"litres":-1983},"place":16}"#,
    ),
];

// What the tanks of the site hold by the book after the day, and the terminal in all.
const BOOKS: &[(&str, &str)] = &[
    (
        r#"{"do":"stock","tank":101}"#,
        r#"{"kg":7163478,"litres":8427621,"reading":15,"sample":1,"tank":101}"#,
    ),
    (
        r#"{"do":"stock","tank":102}"#,
        r#"{"kg":3400000,"litres":4000000,"reading":13,"sample":6,"tank":102}"#,
    ),
    (
        r#"{"do":"stock","tank":103}"#,
        r#"{"kg":0,"litres":0,"reading":0,"sample":0,"tank":103}"#,
    ),
    (
        r#"{"do":"stock","tank":104}"#,
        r#"{"kg":0,"litres":0,"reading":0,"sample":0,"tank":104}"#,
    ),
    (
        r#"{"do":"stock","tank":105}"#,
        r#"{"kg":0,"litres":0,"reading":0,"sample":0,"tank":105}"#,
    ),
    (
        r#"{"do":"stock","tank":106}"#,
        r#"{"kg":0,"litres":0,"reading":0,"sample":0,"tank":106}"#,
    ),
    (r#"{"do":"stock","tank":107}"#, r#"{"rule":3,"value":0}"#),
    (
        r#"{"do":"total"}"#,
        r#"{"entries":16,"kg":10563478,"litres":12427621}"#,
    ),
];

// Reversals after the day, and what they leave.
const REVERSED: &[(&str, &str)] = &[
    (
        r#"{"do":"reverse","account":1,"key":17,"ticket":14}"#,
        REVERSAL,
    ),
    (
        r#"{"do":"reverse","account":1,"key":18,"ticket":14}"#,
        r#"{"rule":21,"value":17}"#,
    ),
    (
        r#"{"do":"reverse","account":1,"key":18,"ticket":5}"#,
        r#"{"rule":21,"value":16}"#,
    ),
    (
        r#"{"do":"reverse","account":1,"key":18,"ticket":11}"#,
        r#"{"rule":21,"value":16}"#,
    ),
    (
        r#"{"do":"reverse","account":1,"key":18,"ticket":4}"#,
        r#"{"rule":20,"value":0}"#,
    ),
    (
        r#"{"do":"stock","tank":102}"#,
        r#"{"kg":4670750,"litres":5495000,"reading":13,"sample":6,"tank":102}"#,
    ),
    (
        r#"{"do":"total"}"#,
        r#"{"entries":17,"kg":11834228,"litres":13922621}"#,
    ),
];

#[test]
fn the_day_and_its_stock_book(rt: HostRuntime) -> Result<(), Fail> {
    let mut checks = Checks::new(&rt);
    for rows in [BOOKS, REVERSED] {
        check_batch(&mut checks, rt.alloc(), &[DAY, rows])?;
    }
    Ok(checks.end()?)
}
