//! A guest over memory that refuses each store.
ghost use Rattle.std.specs.Prelude.{◌≡◌, IfSome};

use super::programs::image_of;
use super::same;
use a32_step::Cpu;
use guest_core::{Code, Port, TryPort};
use guest_thread::Guest;
use llsc_base::{Ask, MachineSize, Stop};
use std::alloc::Global;
use std::test::Fail;

/// Memory of zeros, which refuses each store.
#[derive(Drop)]
struct Zeros;

impl TryPort for Zeros {
    ghost replies = { λ old ask reply new. IfSome reply (λ value. value ≡ 0) };

    ghost mem = { λ zeros. 65536 };

    ghost counted = { λ zeros. 0 };

    fn try_reply(&mut self, ask: Ask) -> Option<u64> {
        self.reply(&(), ask)
    }

    fn counts_one() {}
}

impl Port<()> for Zeros {
    ghost refuses = { λ zeros addr. Unit {0} };

    fn reply(&mut self, handle: &(), ask: Ask) -> Option<u64> {
        match ask {
            Ask::Store(_, _) => None,
            _ => Some(0),
        }
    }
}

/// Loads the byte at r1, which is 1, and stores it there.
const COPIES: &[u32] = &[0xe5d1_0000, 0xe5c1_0000];

/// The stop and the steps of a guest that copies.
fn ended(alloc: Global) -> Result<(Stop, u64), Fail> {
    let size = MachineSize::new(65_536, 1, 1, 1)?;
    let image = image_of(alloc, COPIES, &size)?;
    let mut guest = Guest::<Cpu>::start(alloc, &image, &size, 0)?;
    let mut code = Code::new(alloc, &image)?;
    let stop = guest.run(&(), &mut code, 100, &mut Zeros);
    Ok((stop, guest.steps()))
}

#[test]
fn ends_where_a_store_is_refused(rt: HostRuntime) -> Result<(), Fail> {
    same(&rt, ended(rt.alloc())?, (Stop::TagLimit(1), 1));
    Ok(())
}
