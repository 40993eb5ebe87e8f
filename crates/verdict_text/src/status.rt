//! The status of a verdict.
ghost use Rattle.std.specs.Prelude.{◌≡◌};
ghost use Rattle.verdict_text.specs.Status.{verdict_status};

use container::Verdict;
use image_outside::Status;

/// The status with which a verdict is printed: 0 where a volume starts, 2 where disks are waited for, else 3.
pub fn status_of(verdict: &Verdict) -> Status
    ensures { result.0 ≡ verdict_status verdict.now }
{
    match verdict {
        Verdict::Ready(opening) if opening.starts() => Status::DONE,
        Verdict::Waiting { .. } => Status::WAITING,
        _ => Status::REFUSED,
    }
}
