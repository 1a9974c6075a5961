//! The day of the row site: a receipt, a transfer, a delivery and a settlement, as lines of a batch.

/// The moment of the clock.
pub const NOW: i64 = 1_700_000_000;

/// How many of its lines come before the closing of the transfer.
pub const BEFORE_CLOSING: usize = 10;

/// Its sixteen lines.
pub const DAY: &str = r#"{"do":"sample","account":1,"key":1,"tank":101,"density":8500,"sw":0}
{"do":"gauge","account":1,"key":2,"tank":101,"level":8000,"water":0,"temperature":1500,"ambient":1500}
{"do":"open","account":1,"key":3,"way":"receipt","tank":101,"party":7,"reading":2,"sample":1}
{"do":"gauge","account":1,"key":4,"tank":101,"level":9000,"water":0,"temperature":2500,"ambient":1500}
{"do":"close","account":1,"key":5,"movement":3,"reading":4,"sample":1}
{"do":"sample","account":1,"key":6,"tank":102,"density":8500,"sw":0}
{"do":"dip","account":1,"key":7,"tank":102,"kind":"innage","tapes":[5000,5000],"water":[],"temperatures":[1500],"ambient":1500}
{"do":"open","account":1,"key":8,"way":"transfer","from":101,"to":102,"from_reading":4,"from_sample":1,"to_reading":7,"to_sample":6}
{"do":"dip","account":1,"key":9,"tank":101,"kind":"outage","tapes":[7500,7500],"water":[],"temperatures":[2500,2500,2500],"ambient":1500}
{"do":"dip","account":1,"key":10,"tank":102,"kind":"innage","tapes":[5495,5495],"water":[],"temperatures":[1500],"ambient":1500}
{"do":"close","account":1,"key":11,"movement":8,"reading":9,"sample":1,"to_reading":10,"to_sample":6}
{"do":"open","account":1,"key":12,"way":"delivery","tank":102,"party":8,"reading":10,"sample":6}
{"do":"gauge","account":1,"key":13,"tank":102,"level":4000,"water":0,"temperature":1500,"ambient":1500}
{"do":"close","account":1,"key":14,"movement":12,"reading":13,"sample":6}
{"do":"gauge","account":1,"key":15,"tank":101,"level":8498,"water":0,"temperature":2500,"ambient":1500}
{"do":"settle","account":1,"key":16,"tank":101,"reading":15,"sample":1}
"#;

/// Looks at the books after it.
pub const BOOKS: &[&str] = &[
    r#"{"do":"stock","tank":101}"#,
    r#"{"do":"stock","tank":102}"#,
    r#"{"do":"total"}"#,
];

/// The line of the closing of the transfer.
pub const CLOSING: &str =
    r#"{"do":"close","account":1,"key":11,"movement":8,"reading":9,"sample":1,"to_reading":10,"to_sample":6}"#;

/// The same over HTTP.
pub const CLOSE_REQUEST: &[u8] =
    b"POST /close HTTP/1.1\r\ncontent-length: 88\r\n\r\n{\"account\":1,\"key\":11,\"movement\":8,\"reading\":9,\"sample\":1,\"to_reading\":10,\"to_sample\":6}";
