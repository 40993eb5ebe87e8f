//! Counts of calls and of faults.
ghost use Rattle.std.specs.Prelude.{◌≡◌, ◌<◌, length, slice_index, is_ok};
ghost use Rattle.member_bank.specs.Faults.{HasCause, faults_with, next_count};

use crate::Failed;
use units::DiskNo;

/// The count after this one.
pub fn next(count: u64) -> u64
    ensures { result ≡ next_count count }
{
    count.saturating_add(1)
}

/// The answer to a call, which counts for its disk where it failed.
pub fn answer(faults: &mut [u64], d: DiskNo, went: bool) -> Result<(), Failed>
    requires { d.0 < length faults.old }
    ensures answer { is_ok result ≡ went }
    ensures counts { faults.new ≡ faults_with faults.old d.0 went }
    ensures cause { HasCause (λ k. slice_index faults.old k) (λ k. slice_index faults.new k) d.0 result }
{
    if went {
        return Ok(());
    }
    faults[d.0 as usize] = next(faults[d.0 as usize]);
    Err(Failed)
}
