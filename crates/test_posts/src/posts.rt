//! Days of desk posts.

use crate::days::{Day, Days, PostDay, check_days};
use desk_posts::PostEnd;
use farm_history::Command;
use std::test::Fail;

// A request for a Stop, under account 1, and one under account 2.
const STOP: &[u8] = b"POST /stop HTTP/1.1\r\ncontent-length: 21\r\n\r\n{\"account\":1,\"key\":1}";

const OTHER_STOP: &[u8] =
    b"POST /stop HTTP/1.1\r\ncontent-length: 21\r\n\r\n{\"account\":2,\"key\":1}";

// A look at what the terminal holds.
const TOTAL: &[u8] = b"GET /total HTTP/1.1\r\n\r\n";

/// A post that nobody comes to.
pub const NOBODY: PostDay = PostDay {
    fails: &[],
    idle: 0,
    waits: false,
    until: b"",
    requests: &[],
    end: PostEnd::Ended,
    answered: 0,
    told: b"",
    entered: &[],
};

/// A post that is asked for a Stop.
pub const STOPPED: PostDay = PostDay {
    requests: &[STOP],
    end: PostEnd::Stopped,
    answered: 1,
    entered: &[(1, 1, Command::Stop)],
    ..NOBODY
};

// Another one, under an account of its own.
const ALSO_STOPPED: PostDay = PostDay {
    requests: &[OTHER_STOP],
    entered: &[(2, 1, Command::Stop)],
    ..STOPPED
};

// A post that nobody comes to for a long time. It ends by the Stop of another post.
const IDLE: PostDay = PostDay {
    idle: 10_000_000,
    end: PostEnd::Stopped,
    ..NOBODY
};

/// A day of a new desk without lines, at whose end no listener failed.
pub const NO_LINE: Day = Day {
    receipt: false,
    posts: &[],
    lines: &[],
    rounds: 0,
    entries: 0,
    failed: false,
};

const TWO_STOPS: Days = &[(
    "two Stops",
    Day {
        posts: &[STOPPED, ALSO_STOPPED],
        entries: 2,
        ..NO_LINE
    },
)];

#[test]
fn two_posts_serve_one_desk_side_by_side(rt: HostRuntime) -> Result<(), Fail> {
    check_days(&rt, rt.alloc(), TWO_STOPS)
}

const ONE_WAITS: Days = &[
    (
        "the first post waits",
        Day {
            posts: &[
                PostDay {
                    waits: true,
                    ..STOPPED
                },
                ALSO_STOPPED,
            ],
            entries: 2,
            ..NO_LINE
        },
    ),
    (
        "the last post waits",
        Day {
            posts: &[
                STOPPED,
                PostDay {
                    waits: true,
                    ..ALSO_STOPPED
                },
            ],
            entries: 2,
            ..NO_LINE
        },
    ),
];

// A connection that waits is answered only if the other post's is answered meanwhile. Posts that run one after another, in either order,
// fail one of the days.
#[test]
fn posts_run_side_by_side(rt: HostRuntime) -> Result<(), Fail> {
    check_days(&rt, rt.alloc(), ONE_WAITS)
}

const ONE_STOP: Days = &[
    (
        "1 post",
        Day {
            posts: &[STOPPED],
            entries: 1,
            ..NO_LINE
        },
    ),
    (
        "8 posts",
        Day {
            posts: &[STOPPED, IDLE, IDLE, IDLE, IDLE, IDLE, IDLE, IDLE],
            entries: 1,
            ..NO_LINE
        },
    ),
];

#[test]
fn serve_one_stop(rt: HostRuntime) -> Result<(), Fail> {
    check_days(&rt, rt.alloc(), ONE_STOP)
}

const ONE_LISTEN_FAILS: Days = &[
    (
        "the first listen fails",
        Day {
            posts: &[
                PostDay {
                    fails: &[1],
                    requests: &[STOP],
                    end: PostEnd::ListenerFailed,
                    ..NOBODY
                },
                PostDay {
                    requests: &[TOTAL],
                    answered: 1,
                    ..NOBODY
                },
            ],
            failed: true,
            ..NO_LINE
        },
    ),
    (
        "the first listen fails, and the other post serves to its Stop",
        Day {
            posts: &[
                PostDay {
                    fails: &[1],
                    requests: &[STOP],
                    end: PostEnd::ListenerFailed,
                    ..NOBODY
                },
                STOPPED,
            ],
            entries: 1,
            failed: true,
            ..NO_LINE
        },
    ),
];

#[test]
fn a_failed_listen_ends_its_own_post_alone(rt: HostRuntime) -> Result<(), Fail> {
    check_days(&rt, rt.alloc(), ONE_LISTEN_FAILS)
}
