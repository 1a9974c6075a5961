//! The words of the commands.

ghost use Rattle.std.specs.Prelude.{◌≡◌};
ghost use Rattle.http_requests.specs.Routes.{text_of};

/// The word of a command.
#[derive(Clone, Copy, Debug, PartialEq, Eq)]
pub(crate) enum Word {
    Gauge,
    Dip,
    Sample,
    Open,
    Close,
    Cancel,
    Settle,
    Reverse,
    Stop,
}

impl Word {
    // The word's text.
    pub(crate) fn text(self) -> &'static str
        ensures { result.now ≡ text_of self }
    {
        match self {
            Word::Gauge => "gauge",
            Word::Dip => "dip",
            Word::Sample => "sample",
            Word::Open => "open",
            Word::Close => "close",
            Word::Cancel => "cancel",
            Word::Settle => "settle",
            Word::Reverse => "reverse",
            Word::Stop => "stop",
        }
    }
}
