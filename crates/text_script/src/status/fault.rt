ghost use Rattle.std.specs.Prelude.{◌≡◌};

use rbc_line::LineFault;
use rbc_msgs::MsgFault;
use rbc_world::StepFault;
use std::alloc::{AllocError, AllocFailed};
use std::io;
use thiserror::Error;

/// Why the program ends before it has done its task.
#[derive(Debug, Drop, Error)]
pub enum Fault<'a> {
    /// The arguments can't be read.
    #[error("rbcline: words refused")]
    Words,
    /// The arguments name no command, or ask for help. The error contains the text to show.
    #[error(transparent)]
    Usage(clap::Error),
    /// This argument is neither bytes in hexadecimal nor a file.
    #[error("rbcline: {0} is not hexadecimal")]
    NotHexadecimal(&'a str),
    /// `--train` names no train of the line: its NID_ENGINE.
    #[error("rbcline: --train {0}: the line has no such train")]
    NoTrain(u32),
    /// `--from` and `--to` name no event of the print: the number of its events.
    #[error("rbcline: --from and --to name no event of the print: it has {0}")]
    NoEvents(usize),
    #[error("rbcline: cannot read {0}")]
    CannotRead(&'a str),
    /// The journal of a centre can't be read: its name, with its folder.
    #[error("rbcline: cannot read {0}")]
    NoJournal(String),
    /// The journal of this name belongs to another centre, line or version.
    #[error("rbcline: {0} is of another centre or line")]
    Foreign(String),
    /// A line of a journal is damaged; lines count from 1.
    #[error("rbcline: {journal} line {row}")]
    Damaged { journal: String, row: usize },
    /// The journals do not belong to one run of the line. `row` is the line of the first entry that does not fit.
    #[error("rbcline: the journals do not fit together: {journal} line {row}")]
    Unfit { journal: String, row: usize },
    #[error("rbcline: line fault {number}", number = .0.number())]
    Line(LineFault),
    /// A line of the script has no valid form; lines count from 1.
    #[error("rbcline: script line {0}")]
    Script(usize),
    #[error("rbcline: step refused {number}", number = .0.number())]
    Step(StepFault),
    /// The bytes to show are not a message.
    #[error("rbcline: message fault {number}", number = .0.number())]
    Message(MsgFault),
    /// An audit found a line that differs. The line is printed already.
    #[error("rbcline: the print differs")]
    Differs,
    /// A port can't be listened on; or a connection failed, ended early, or brought bytes that are not a message.
    #[error("rbcline: socket")]
    Socket,
    /// The output was refused. Nothing more is written.
    #[error("rbcline: cannot write")]
    Write,
}

impl Fault<'_> {
    ghost use Rattle.text_script.specs.Status.Statuses.{status_of};

    /// The program's exit status.
    pub fn status(&self) -> u8
        ensures { result ≡ status_of self.now }
    {
        match self {
            Fault::Differs => 1,
            Fault::Words | Fault::Usage(_) | Fault::NotHexadecimal(_) => 2,
            Fault::NoTrain(_) | Fault::NoEvents(_) => 2,
            Fault::CannotRead(_) | Fault::Script(_) => 3,
            Fault::NoJournal(_) | Fault::Foreign(_) => 3,
            Fault::Damaged { .. } | Fault::Unfit { .. } => 3,
            Fault::Line(_) => 4,
            Fault::Step(_) => 5,
            Fault::Socket | Fault::Write => 6,
            Fault::Message(_) => 7,
        }
    }
}

impl From<LineFault> for Fault<'_> {
    ghost use Rattle.std.specs.Prelude.{◌≡◌};
    ghost use Rattle.text_script.specs.declared.status.fault.Fault.TheVariants.{Line};

    ghost from_gives = { λ why fault. fault ≡ Line why };

    fn from(fault: LineFault) -> Self {
        Fault::Line(fault)
    }
}

impl From<StepFault> for Fault<'_> {
    ghost use Rattle.std.specs.Prelude.{◌≡◌};
    ghost use Rattle.text_script.specs.declared.status.fault.Fault.TheVariants.{Step};

    ghost from_gives = { λ why fault. fault ≡ Step why };

    fn from(fault: StepFault) -> Self {
        Fault::Step(fault)
    }
}

// A failed allocation without a number of its own counts as a refused step.
impl From<AllocError> for Fault<'_> {
    ghost use Rattle.std.specs.Prelude.{◌≡◌};
    ghost use Rattle.rbc_world.specs.rbc_centre.declared.fault.StepFault.TheVariants.{Memory};
    ghost use Rattle.text_script.specs.declared.status.fault.Fault.TheVariants.{Step};

    ghost from_gives = { λ _ fault. fault ≡ Step Memory };

    fn from(_error: AllocError) -> Self {
        Fault::Step(StepFault::Memory)
    }
}

impl<T: Drop> From<AllocFailed<T>> for Fault<'_> {
    fn from(_error: AllocFailed<T>) -> Self {
        Fault::Step(StepFault::Memory)
    }
}

impl From<io::Error> for Fault<'_> {
    ghost use Rattle.std.specs.Prelude.{◌≡◌};
    ghost use Rattle.text_script.specs.declared.status.fault.Fault.TheVariants.{Write};

    ghost from_gives = { λ _ fault. fault ≡ Write };

    fn from(_error: io::Error) -> Self {
        Fault::Write
    }
}
