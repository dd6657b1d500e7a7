// How a run ends.
ghost use Rattle.std.specs.Prelude.{◌≡◌, ◌≢◌};
ghost use Rattle.mm_host.specs.declared.damage.Fault.TheVariants as fault;
ghost use Rattle.mm_run.specs.Inside.Turning.{IsStoreFault, status_at};
ghost use Rattle.mm_run.specs.Statuses.{number_of, fault_line};

use mm_host::{Damage, Fault};

/// How a run ended: at the first fault, or with none.
#[derive(Debug, Drop)]
pub enum Status {
    /// The input was read to its end or to the line `quit`.
    Ok,
    /// The words of the program aren't taken.
    Usage,
    /// The source failed.
    SourceFault,
    /// The sink failed.
    SinkFault,
    /// The disk failed.
    DiskFault,
    /// The disk's bytes are wrong.
    Damaged(Damage),
    /// There was no memory.
    Memory,
    /// As many bytes were taken as may be, and neither the end nor `quit` came.
    TooMuchInput,
}

impl Status {
    /// The number that the program ends with.
    pub fn number(&self) -> u8
        ensures { result ≡ number_of self.now }
    {
        match self {
            Status::Ok => 0,
            Status::Usage => 1,
            Status::SourceFault => 2,
            Status::SinkFault => 3,
            Status::DiskFault => 4,
            Status::Damaged(_) => 5,
            Status::Memory => 6,
            Status::TooMuchInput => 8,
        }
    }

    /// The line that is written last: empty where the run had no fault, or the sink failed.
    #[tactic(auto, unfolding(crate::specs::Statuses::fault_line))]
    pub fn fault_line(&self) -> &'static str
        ensures { result.now ≡ fault_line self.now }
    {
        match self {
            Status::Ok | Status::SinkFault => "",
            Status::Usage => "fault 1 usage\n",
            Status::SourceFault => "fault 2 source\n",
            Status::DiskFault => "fault 4 disk\n",
            Status::Damaged(_) => "fault 5 damaged\n",
            Status::Memory => "fault 6 memory\n",
            Status::TooMuchInput => "fault 8 input\n",
        }
    }
}

/// What a turn did.
#[derive(Clone, Copy, Debug, PartialEq, Eq)]
pub enum Went {
    /// A command was answered.
    Answered,
    /// No command is left, or the last one was `quit`.
    Ended,
}

/// The status of a run that a store's fault ends. A store that isn't spent doesn't answer that it is.
pub fn status_at(why: Fault) -> Status
    requires { why ≢ fault.Spent }
    ensures is { result ≡ status_at why }
    ensures sort { IsStoreFault result }
{
    match why {
        Fault::DiskFault => Status::DiskFault,
        Fault::Damaged(damage) => Status::Damaged(damage),
        Fault::Memory => Status::Memory,
        Fault::Spent => unreachable!(),
    }
}
