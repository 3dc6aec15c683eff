// What CS# rising does to the status register and to sleep.
ghost use Rattle.std.specs.Prelude.{◌≡◌};
ghost use Rattle.spi_status.specs.Deselect.{taken_status, written_status, action_status, status_after, asleep_after};

use parts::status::Status;
use selection::phase::{Action, Field, Phase};

// The register that a byte of WRSR says, with WEL cleared.
fn taken_status(byte: u8) -> Status
    ensures { result ≡ taken_status byte }
{
    Status::from(byte).with_wel(false)
}

// The end of a WRSR that had its first data byte, with WP# as the sample has it in which CS# rises.
fn written_status(status: Status, wp: bool, byte: u8) -> Status
    ensures { result ≡ written_status status wp byte }
{
    if status.wel && (wp || !status.srwd) {
        taken_status(byte)
    } else {
        status.with_wel(false)
    }
}

fn action_status(status: Status, wp: bool, action: Action) -> Status
    ensures { result ≡ action_status status wp action }
{
    match action {
        Action::SetLatch => status.with_wel(true),
        Action::ClearLatch => status.with_wel(false),
        Action::FallAsleep => status,
        Action::WriteStatus { byte } => written_status(status, wp, byte),
    }
}

// The status register after CS# rises at a sample with WP# at wp: a WRITE that had a whole data byte clears WEL.
pub fn status_after(status: Status, wp: bool, phase: Phase) -> Status
    ensures { result ≡ status_after status wp phase }
{
    match phase {
        Phase::Waiting { action } => action_status(status, wp, action),
        Phase::Taking {
            field: Field::Data { whole: true, .. },
            ..
        }
        | Phase::Pending { .. } => status.with_wel(false),
        _ => status,
    }
}

// Whether the part sleeps after CS# rises.
pub fn asleep_after(asleep: bool, phase: Phase) -> bool
    ensures { result ≡ asleep_after asleep phase }
{
    match phase {
        Phase::Waiting {
            action: Action::FallAsleep,
        } => !asleep,
        _ => false,
    }
}
