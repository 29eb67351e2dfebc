//! The test of an access that an instruction is to ask for.
ghost use Rattle.std.specs.Prelude.{◌≡◌, IfNone};
ghost use Rattle.guest_core.specs.Asking.{stop_of};
ghost use Rattle.guest_core.specs.Machine.{PassesTests};

use llsc_base::{Ask, Image, Stop};

/// The stop of a thread whose access is barred, if anything bars it: it isn't a multiple of its size, reaches past memory, or is a store
/// to a span that isn't written, of which the first counts. `None` where the access may be made.
#[inline(always)]
pub fn stop_at(image: &Image, ask: Ask) -> Option<Stop>
    ensures stop { result ≡ stop_of image.now ask }
    ensures passes { IfNone result (PassesTests image.now ask) }
{
    let (place, store) = match ask {
        Ask::Load(place) | Ask::LoadEx(place) => (place, false),
        Ask::Store(place, _) | Ask::StoreEx(place, _) => (place, true),
        Ask::Clear => return None,
    };
    match image.test(place, store) {
        Some(bar) => Some(bar.stop_at(place.addr)),
        None => None,
    }
}
