//! How a request is refused.
ghost use Rattle.std.specs.Prelude.{Some};
ghost use Rattle.llsc_files.specs.Refusals.{IsRefusal};

use std::alloc::Global;

/// Why a request has no other answer.
#[derive(Drop)]
pub enum Refusal {
    /// Something stands against it: what is said of that.
    Said(String),
    /// Memory is wanting.
    Memory,
}

/// The refusal by the name of what stands against a request.
pub fn refuse(alloc: Global, name: &str) -> Refusal
    ensures { IsRefusal (Some name.now) result }
{
    match format!(in alloc; "llsc: {name}\n") {
        Ok(text) => Refusal::Said(text),
        Err(_) => Refusal::Memory,
    }
}
