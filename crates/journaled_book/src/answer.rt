//! What is answered to a request.

ghost use Rattle.std.specs.Prelude.{◌≡◌};
ghost use Rattle.journaled_book.specs.Replies.{answer_of, faults_of};

use farm_base::NoMemory;
use farm_history::Reply;
use farm_journal::DiskFault;

/// The answer to a request.
#[derive(Clone, Copy, Debug, PartialEq, Eq)]
pub enum Answer {
    /// The reply. Whatever a crash leaves has every entry that the reply rests on.
    Done(Reply),
    /// The disk failed in this call. The request changed nothing, or its command is entered and in doubt: a crash leaves it or not, until
    /// a later call has opened its gate.
    DiskFault,
    /// There was no memory, and the request changed nothing.
    NoMemory,
}

impl Answer {
    /// How many faults of the disk it reports: 1 for `DiskFault`, else 0.
    pub fn faults(&self) -> u64
        ensures faults { result ≡ faults_of self.now }
    {
        match self {
            Answer::DiskFault => 1,
            Answer::Done(_) | Answer::NoMemory => 0,
        }
    }
}

/// Why a request wasn't answered.
#[derive(Clone, Copy)]
pub enum NoReply {
    /// The disk failed.
    DiskFault,
    /// There was no memory.
    NoMemory,
}

impl From<DiskFault> for NoReply {
    ghost use Rattle.journaled_book.specs.declared.answer.NoReply.TheVariants.{DiskFault};

    ghost from_gives = { λ _ why. why ≡ DiskFault };

    fn from(_: DiskFault) -> Self {
        NoReply::DiskFault
    }
}

impl From<NoMemory> for NoReply {
    ghost use Rattle.journaled_book.specs.declared.answer.NoReply.TheVariants.{NoMemory};

    ghost from_gives = { λ _ why. why ≡ NoMemory };

    fn from(_: NoMemory) -> Self {
        NoReply::NoMemory
    }
}

/// The answer of a reply, or of the reason why there is no reply.
pub fn answer_of(replied: Result<Reply, NoReply>) -> Answer
    ensures answer { result ≡ answer_of replied }
{
    match replied {
        Ok(reply) => Answer::Done(reply),
        Err(NoReply::DiskFault) => Answer::DiskFault,
        Err(NoReply::NoMemory) => Answer::NoMemory,
    }
}
