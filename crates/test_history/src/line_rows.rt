//! Lines of a batch, each with its name and the command that it asks for under account 1 and key 3.

use farm_history::{Command, Few, Gauged, Plan};
use farm_ticket::Way;

/// Names, lines and their commands.
pub type Lines = &'static [(&'static str, &'static str, Command)];

/// What is measured of a tank.
pub const READINGS: Lines = &[
    (
        "a sample",
        r#"{"do":"sample","account":1,"key":3,"tank":101,"density":8500,"sw":0}"#,
        Command::Sample {
            tank: 101,
            density: 8500,
            sw: 0,
        },
    ),
    (
        "a gauge of the greatest and the least numbers",
        r#"{"do":"gauge","account":1,"key":3,"tank":65535,"level":9223372036854775807,"water":-1,"temperature":-9223372036854775808,"ambient":2150}"#,
        Command::Gauge {
            tank: 65_535,
            level: i64::MAX,
            water: -1,
            temperature: i64::MIN,
            ambient: 2150,
        },
    ),
    (
        "a dip of eight tapes",
        r#"{"do":"dip","account":1,"key":3,"tank":0,"kind":"outage","tapes":[1,2,3,4,5,6,7,8],"water":[],"temperatures":[-15,20],"ambient":7}"#,
        Command::Dip {
            tank: 0,
            outage: true,
            tapes: Few {
                count: 8,
                values: [1, 2, 3, 4, 5, 6, 7, 8],
            },
            water: Few {
                count: 0,
                values: [0; 8],
            },
            temperatures: Few {
                count: 2,
                values: [-15, 20, 0, 0, 0, 0, 0, 0],
            },
            ambient: 7,
        },
    ),
];

/// How movements are opened.
pub const OPENINGS: Lines = &[
    (
        "a receipt",
        r#"{"do":"open","account":1,"key":3,"way":"receipt","tank":101,"party":7,"reading":2,"sample":1}"#,
        Command::Opening(Plan::Outside {
            way: Way::Inward,
            tank: 101,
            party: 7,
            gauged: Gauged {
                reading: 2,
                sample: 1,
            },
        }),
    ),
    (
        "a delivery of the greatest numbers",
        r#"{"do":"open","account":1,"key":3,"way":"delivery","tank":65535,"party":65535,"reading":4294967295,"sample":0}"#,
        Command::Opening(Plan::Outside {
            way: Way::Outward,
            tank: 65_535,
            party: 65_535,
            gauged: Gauged {
                reading: 4_294_967_295,
                sample: 0,
            },
        }),
    ),
    (
        "a transfer",
        r#"{"do":"open","account":1,"key":3,"way":"transfer","from":101,"to":102,"from_reading":4,"from_sample":1,"to_reading":7,"to_sample":6}"#,
        Command::Opening(Plan::Transfer {
            from: 101,
            to: 102,
            from_gauged: Gauged {
                reading: 4,
                sample: 1,
            },
            to_gauged: Gauged {
                reading: 7,
                sample: 6,
            },
        }),
    ),
];

/// How a movement ends, and how a ticket is reversed.
pub const ENDS: Lines = &[
    (
        "a closing",
        r#"{"do":"close","account":1,"key":3,"movement":3,"reading":4,"sample":1}"#,
        Command::Closing {
            movement: 3,
            first: Gauged {
                reading: 4,
                sample: 1,
            },
            second: None,
        },
    ),
    (
        "a closing of two tanks",
        r#"{"do":"close","account":1,"key":3,"movement":8,"reading":9,"sample":1,"to_reading":10,"to_sample":6}"#,
        Command::Closing {
            movement: 8,
            first: Gauged {
                reading: 9,
                sample: 1,
            },
            second: Some(Gauged {
                reading: 10,
                sample: 6,
            }),
        },
    ),
    (
        "a cancel",
        r#"{"do":"cancel","account":1,"key":3,"movement":3}"#,
        Command::Cancel { movement: 3 },
    ),
    (
        "a reversal",
        r#"{"do":"reverse","account":1,"key":3,"ticket":14}"#,
        Command::Reverse { ticket: 14 },
    ),
];

/// How a tank's book is brought to what was gauged.
pub const SETTLEMENTS: Lines = &[(
    "a settlement",
    r#"{"do":"settle","account":1,"key":3,"tank":101,"reading":15,"sample":1}"#,
    Command::Settle {
        tank: 101,
        gauged: Gauged {
            reading: 15,
            sample: 1,
        },
    },
)];

/// The end of the desk's work.
pub const STOPS: Lines = &[
    (
        "a Stop",
        r#"{"do":"stop","account":1,"key":3}"#,
        Command::Stop,
    ),
    (
        "blanks and another order",
        " {\t\"key\" : 3 , \"account\" : 1 ,\r \"do\" : \"stop\" } ",
        Command::Stop,
    ),
    (
        "members that come twice",
        r#"{"do":"dip","do":"stop","account":0,"account":1,"key":-1,"key":3}"#,
        Command::Stop,
    ),
    (
        "members of other commands",
        r#"{"do":"stop","account":1,"key":3,"tank":null,"level":1.5}"#,
        Command::Stop,
    ),
];
