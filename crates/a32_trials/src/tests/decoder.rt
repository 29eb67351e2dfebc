//! What the decoder reads of words.
mod manual;
mod refusals;

use a32_decode::decode;
use a32_instr::Instr;
use llsc_base::DecodeFault;

/// The first word that isn't decoded to what stands beside it.
fn first_wrong(words: &[(u32, Result<Instr, DecodeFault>)]) -> Option<u32> {
    for (word, want) in words {
        if decode(*word) != *want {
            return Some(*word);
        }
    }
    None
}
