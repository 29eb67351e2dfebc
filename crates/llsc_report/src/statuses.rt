//! The status by the stops of threads.
ghost use Rattle.std.specs.Prelude.{◌≡◌, ◌⊎◌};
ghost use Rattle.llsc_report.specs.Status.{have_left, status_of, status_of_all};

use guest_thread::GuestEnd;
use llsc_base::Stop;

/// 0 where a thread left by an exit call with code 0, else 1.
pub fn status(stop: Stop) -> u8
    ensures value { result ≡ status_of stop }
    ensures bound { (result ≡ 0) ⊎ (result ≡ 1) }
{
    match stop {
        Stop::Exit(0) => 0,
        _ => 1,
    }
}

/// Whether each thread left by an exit call with code 0.
pub fn have_left(ends: &[GuestEnd]) -> bool
    ensures { result ≡ have_left ends.now }
{
    ends.iter().all(|end| status(end.stop) == 0)
}

/// 0 where each thread left by an exit call with code 0, else 1.
pub fn status_of_all(ends: &[GuestEnd]) -> u8
    ensures value { result ≡ status_of_all ends.now }
    ensures bound { (result ≡ 0) ⊎ (result ≡ 1) }
{
    if have_left(ends) {
        return 0;
    }
    1
}
