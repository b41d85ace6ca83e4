ghost use Rattle.text_script.specs.Status.Statuses.{Ends, IsReported};

use crate::status::fault::Fault;
use std::fmt::Display;
use std::io;
use std::io::Write;

/// Gives the exit status of a command: 0 if it succeeded. Otherwise it reports the fault, as `report` does.
pub fn ended<O: Write, E: Write>(done: Result<(), Fault<'_>>, out: &mut O, err: &mut E) -> u8
    ensures { Ends done.entry result }
{
    match done {
        Ok(()) => 0,
        Err(fault) => report(&fault, out, err),
    }
}

/// Reports a fault, and gives the exit status. Requested help is printed to `out`.
pub fn report<O: Write, E: Write>(fault: &Fault, out: &mut O, err: &mut E) -> u8
    ensures { IsReported fault.now result }
{
    let told = match fault {
        Fault::Write | Fault::Differs => Ok(()),
        Fault::Usage(usage) if usage.use_stderr() => tell(err, format_args!("{usage}")),
        Fault::Usage(help) => tell(out, format_args!("{help}")),
        _ => tell(err, format_args!("{fault}\n")),
    };
    match told {
        Ok(()) => fault.status(),
        Err(_) => 6,
    }
}

fn tell<W: Write, T: Display + Drop>(to: &mut W, text: T) -> io::Result<()> {
    write!(to, "{text}")?;
    to.flush()
}
